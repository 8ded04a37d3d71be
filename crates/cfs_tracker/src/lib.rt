//! What the run time knows of one inode, without its devices.
//!
//! A tracker keeps the changes that are admitted and not closed yet, the reads that are not
//! answered, what each block of the file is doing, the request in doubt and the size. It makes no
//! device step: who calls it takes the slots and the blocks out, makes the steps, and tells what
//! came of them. Each call is one event of the core, or none, and says so: whatever core the
//! tracker follows, the event may come there, and the tracker follows what it makes.
#![tactic(auto)]

mod admit;
mod ahead;
mod blockers;
mod cell;
mod cells;
mod covers;
mod dispatch;
mod doing;
mod ending;
mod find;
mod finish;
mod in_doubt;
mod laws;
mod lending;
mod listing;
mod mark;
mod new;
mod note;
mod parts;
mod passed;
mod pending;
mod purge;
mod reading;
mod reads;
mod sending;
mod settle;
mod skip;
mod spans;
mod step;
mod tags;
mod taken;
mod tells;
mod tile;
mod tracker;
mod trim;
mod work;
mod work_item;

pub use cell::Cell;
pub use doing::Doing;
pub use in_doubt::InDoubt;
pub use listing::{EntryState, Listed};
pub use parts::Parts;
pub use pending::Pending;
pub use reading::Reading;
pub use step::Step;
pub use taken::Taken;
pub use tile::Tile;
pub use tracker::Tracker;
pub use work_item::Work;
