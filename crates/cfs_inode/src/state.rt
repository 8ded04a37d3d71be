//! The state of one inode with its devices.

use cfs_slot::{Doubt, Live};
use cfs_tracker::Tracker;

/// One inode: what the run time knows of it, the region of its size word, the slots of its pending
/// changes and of the one in doubt, and its blocks; all but what jobs have that are out. `S` and `D`
/// are what holds these slots.
#[derive(Drop)]
pub struct State<R, B, S, D> {
    pub(crate) ino: u64,
    pub(crate) size: R,
    pub(crate) tracker: Tracker<S, D, B>,
}

/// The state of one inode with its devices.
pub type InodeState<R, B> = State<R, B, Live<R>, Doubt<R>>;
