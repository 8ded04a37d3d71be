//! Stores that begin, on devices in memory: what the tests of the crates above start from; and what
//! a crash leaves of them.
#![tactic(auto)]

mod left;
mod names;
mod queues;
mod state;

pub use left::Left;
pub use names::stored_tree;
pub use queues::queue;
pub use state::ns_state;
