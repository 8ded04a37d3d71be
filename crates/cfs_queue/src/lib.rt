//! The slots of a queue: which are free, and at which places the others are out.
//!
//! A queue has 16 slots, by their numbers 0 to 15. It is seen as what stands at each number: the
//! region of a free slot, or the place of a slot that is out, which is 0 until it is known. Its two
//! lists, the free slots and those that are out, are read off from that, so that a number is never
//! in both of them and never in none. No call takes memory or waits.
#![tactic(auto)]

mod kept;
mod queue;
mod refusal;
mod rows;

pub use queue::Queue;
pub use refusal::{Few, Full};
