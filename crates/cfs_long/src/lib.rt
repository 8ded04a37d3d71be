//! Chains of slots: a request is staged in as many slots as it takes, behind one gate.
#![tactic(auto)]

mod chain;
mod laws;
mod lists;
mod room;

pub use chain::stage_chain;
pub use laws::staged_stands_whole;
pub use room::{are_chain, is_chained, slots_for};
