//! The tests of cfs_gather, in a crate of their own: with tests of its own that crate would be
//! proved twice, with them and without.
#![tactic(auto)]

#[cfg(test)]
mod kernel;
#[cfg(test)]
mod medium;
#[cfg(test)]
mod parts;
#[cfg(test)]
mod tests;
