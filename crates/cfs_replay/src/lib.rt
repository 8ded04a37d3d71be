//! Live entries are brought home from what their slots hold: the payload is read, the request is
//! cut into pieces by the blocks that its file has, and these are brought home by `cfs_recover`.
//!
//! `replay` carries out the whole plan of a mount: it closes dead slots, brings the entries home,
//! and clears blocks and size words that are no file's.
#![tactic(auto)]

mod entries;
mod laws;
mod one;
mod payload;
mod pending;
mod pieces;
mod plan;
mod reading;
mod whole;

pub use entries::replay_entries;
pub use laws::listed_entries_are_in_order;
pub use one::{bring_truncate, bring_write, replay_entry};
pub use payload::{MOST_PLACES, places_of, read_payload};
pub use pending::Pending;
pub use pieces::{MOST_PIECES, write_pieces, zero_pieces};
pub use plan::Plan;
pub use reading::{read_found, read_word};
pub use whole::replay;
