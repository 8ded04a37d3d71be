//! Why a queue gives no slot.

use arrayvec::ArrayVec;
use cfs_slot::QUEUE_SLOTS;

/// No slot is free.
#[derive(Clone, Copy, Debug, PartialEq, Eq)]
pub struct Full {
    /// The places of the slots, ascending, and 0 of one whose place is not known.
    pub places: [u64; QUEUE_SLOTS],
}

/// Fewer slots are free than are asked for.
#[derive(Debug, Drop)]
pub struct Few {
    /// How many are asked for.
    pub need: u32,
    /// The place of each slot that is not free, ascending, and 0 of one whose place is not known.
    pub places: ArrayVec<u64, QUEUE_SLOTS>,
}
