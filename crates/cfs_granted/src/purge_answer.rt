//! What one step answers by which a record is emptied.

use cfs_block::{FreeBlock, MemBlock};

/// What one step answers by which a record becomes free.
#[derive(Drop)]
pub enum PurgeAnswer {
    /// This block of its file is free, and more is to come.
    Freed(FreeBlock<MemBlock>),
    /// The record is free.
    Done,
    /// The grant of this number stands.
    InUse(u64),
    /// A device fault: the same step is the next one.
    Failed,
}
