//! What one step answers by which a state is emptied.

use cfs_block::{Block, FreeBlock};

/// What one step answers by which the state of a file is emptied that is no longer in the tree.
#[derive(Drop)]
pub enum PurgeAnswer<B: Block> {
    /// This block is free, and more is to come.
    Freed(FreeBlock<B>),
    /// Nothing is left: it is the state of an empty file without blocks.
    Done,
    /// A change or a read is pending, a request is in doubt, or a block is out.
    InUse,
    /// A device fault: a tag or the size word is unsure, or is as it was.
    Failed,
}
