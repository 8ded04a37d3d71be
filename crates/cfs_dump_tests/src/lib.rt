//! The tests of cfs_dump, in a crate of their own: with tests of its own that crate would be proved
//! twice, with them and without.
#![tactic(auto)]

#[cfg(test)]
mod tests;
