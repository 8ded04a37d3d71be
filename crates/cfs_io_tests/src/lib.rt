//! Tests of sources, sinks, shelves and folders.
#![tactic(auto)]

#[cfg(test)]
mod tests;
