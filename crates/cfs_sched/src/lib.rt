//! Which of the items of work that stand ready is done next, and the gate that work passes.
#![tactic(auto)]

mod choice;
mod gate;
mod summary;

pub use choice::{Choice, choose, passed_over_often_comes_first};
pub use gate::{Gate, OpenGate};
pub use summary::Summary;
