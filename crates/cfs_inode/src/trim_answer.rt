//! What a call answers that is to give up a block.

use cfs_block::{Block, FreeBlock};

/// What a call answers that is to give up a block.
#[derive(Drop)]
pub enum TrimAnswer<B: Block> {
    /// It is free.
    Freed(FreeBlock<B>),
    /// There is none.
    Nothing,
    /// A device fault: its tag is unsure, and it is kept.
    Failed,
}
