//! The checkpoint of the tree of names: two copies of its table, and a selector that tells which
//! one counts and after which change of the journal.
//!
//! A store writes the copy that is not selected, persists it, and only then sets the selector. So
//! in each image the selected copy stands whole: that of before, or the new one.
#![tactic(auto)]

mod checkpoint;
mod laws;
mod table;

pub use checkpoint::Checkpoint;
pub use laws::{crashes_in_a_store, crashes_load_stores, stores_take_steps};
pub use table::TABLE_WORDS;
