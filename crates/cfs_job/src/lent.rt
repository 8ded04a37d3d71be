//! A block that is handed to a job, and comes back from it.

use cfs_block::Block;

/// A block and its number in the file, from 0.
#[derive(Drop)]
pub struct Lent<B: Block> {
    pub at: u64,
    pub block: B,
}
