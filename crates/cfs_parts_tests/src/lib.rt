//! Tests of the parts of a state: values, trees, queues, grants, the pool and the order of work.
#![tactic(auto)]

#[cfg(test)]
mod conflict;
#[cfg(test)]
mod cred;
#[cfg(test)]
mod extent;
#[cfg(test)]
mod file;
#[cfg(test)]
mod grants;
#[cfg(test)]
mod pool;
#[cfg(test)]
mod queue;
#[cfg(test)]
mod sched;
#[cfg(test)]
mod tree;
#[cfg(test)]
mod vec;
