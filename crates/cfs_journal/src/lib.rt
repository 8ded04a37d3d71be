//! The journal: the changes of the tree since its last checkpoint, as records on the device.
//!
//! A record is one region of sixteen words: its gate, which is the record's number, and a change.
//! It is written behind its gate and persisted, and then its gate is opened, so a crash leaves it
//! whole or not there. After a fault nobody knows which: the record is in doubt until the next
//! `append` has closed its gate.
#![tactic(auto)]

mod append_refusal;
mod journal;
mod record;

pub use append_refusal::AppendRefusal;
pub use journal::{Journal, PLACES};
pub use record::{GATE, RECORD_WORDS};
