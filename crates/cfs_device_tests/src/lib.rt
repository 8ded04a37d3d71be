//! Tests of devices, slots, long requests, jobs and recovered media.
#![tactic(auto)]

#[cfg(test)]
mod block;
#[cfg(test)]
mod job;
#[cfg(test)]
mod long;
#[cfg(test)]
mod medium;
#[cfg(test)]
mod pmem;
#[cfg(test)]
mod slot;
