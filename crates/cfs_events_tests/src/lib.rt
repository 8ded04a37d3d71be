//! Tests of the events of one file, as a plain program runs them.
#![tactic(auto)]

#[cfg(test)]
mod tests;
