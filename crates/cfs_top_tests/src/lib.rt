//! Tests of the whole program on memory streams.
#![tactic(auto)]

#[cfg(test)]
mod tests;
