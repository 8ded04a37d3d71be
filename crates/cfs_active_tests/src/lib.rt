//! The tests of cfs_active, in a crate of their own: with tests of its own that crate would be
//! proved twice, with them and without.
#![tactic(auto)]

#[cfg(test)]
mod carry;
#[cfg(test)]
mod cases;
#[cfg(test)]
mod command;
#[cfg(test)]
mod crash;
#[cfg(test)]
mod entry;
#[cfg(test)]
mod rig;
#[cfg(test)]
mod runs;
#[cfg(test)]
mod staging;
#[cfg(test)]
mod stops;
#[cfg(test)]
mod tests;
#[cfg(test)]
mod texts;
