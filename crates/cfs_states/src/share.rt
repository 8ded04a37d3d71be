//! What one record has of a store.
ghost use Rattle.std.specs.Prelude.{◌≡◌, ◌∷◌, [], OnOk, None};
ghost use Rattle.cfs_active.specs.Memory.{words_seen};
ghost use Rattle.cfs_block.specs.MemoryBlocks.{seen_of};
ghost use Rattle.cfs_states.specs.Shares.{share_view, with_mapped};

use cfs_block::MemBlock;
use cfs_file::NoMemory;
use cfs_inode::Mapped;
use cfs_pmem::MemRegion;
use std::alloc::Global;

/// The size region of a record, and where the record is a file's, its inode number and those of its
/// blocks that were handed to it so far.
#[derive(Drop)]
pub struct Share {
    pub size: MemRegion,
    pub owner: Option<u64>,
    pub blocks: Vec<Mapped<MemBlock>>,
}

impl Share {
    /// No block so far.
    pub fn new(alloc: Global, size: MemRegion, owner: Option<u64>) -> Share
        ensures { share_view result ≡
            record { size = words_seen size; owner = owner; blocks = [] } }
    {
        Share {
            size,
            owner,
            blocks: Vec::new(alloc),
        }
    }

    /// Hands a block to it, with its number in the file.
    pub fn add(&mut self, at: u64, block: MemBlock) -> Result<(), NoMemory>
        ensures { OnOk result (share_view self.new ≡
            with_mapped (record { at = at; block = seen_of block } ∷ []) (share_view self.old)) }
    {
        self.blocks.push(Mapped { at, block })?;
        Ok(())
    }
}
