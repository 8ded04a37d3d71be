//! Which requests of a file stand in one another's way: its live entries and its unserved reads,
//! each with the span of positions that it has, and the questions that the order of places
//! asks of them.
#![tactic(auto)]

mod conflicts;
mod questions;

pub use conflicts::Conflicts;
