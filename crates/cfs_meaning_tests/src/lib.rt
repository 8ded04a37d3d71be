//! Tests of the devices of a run.
#![tactic(auto)]

#[cfg(test)]
mod tests;
