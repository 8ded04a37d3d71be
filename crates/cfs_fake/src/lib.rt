//! What tests of threads share: a value with a log to lie behind a lock, and a gate that
//! holds a call.
#![tactic(auto)]

mod adding;
mod hold_gate;
mod listed;

pub use adding::{add_all, add_next, both_add};
pub use hold_gate::HoldGate;
pub use listed::{Listed, NUMBERS, Note};

#[cfg(test)]
mod tests;
