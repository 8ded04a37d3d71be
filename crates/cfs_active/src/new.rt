//! States and their jobs are made.

ghost use Rattle.cfs_block.specs.MemoryBlocks.{seen_of};
ghost use Rattle.cfs_active.specs.Memory.{words_seen};
ghost use Rattle.std.specs.Prelude.{◌≡◌, ◌<◌, ◌^◌, [], IfErr, IfOk, get_or, length, map};
ghost use Rattle.cfs_pmem.specs.Images.{IsSure, words_of};
ghost use Rattle.cfs_inode.specs.New.{HasFile, IsStored, stored_state, told_mapped};

use crate::active::ActiveInode;
use cfs_block::MemBlock;
use cfs_file::NoMemory;
use cfs_inode::{InodeState, Mapped};
use cfs_pmem::MemRegion;
use std::alloc::Global;

impl ActiveInode {
    ghost use Rattle.cfs_active.specs.Loads.{IsLoadable};
    ghost use Rattle.cfs_active.specs.View.{active_view};

    /// The state of an empty file without blocks. Its number is below 2^32, and its region has a
    /// word. Without memory the region comes back.
    pub fn new(
        alloc: Global,
        ino: u64,
        size: MemRegion,
    ) -> Result<ActiveInode, (MemRegion, NoMemory)>
        requires number { ino < 2 ^ 32 }
        requires sized { 0 < length (words_of (words_seen size)) }
        requires sure { IsSure (words_seen size) }
        requires empty { get_or (words_of (words_seen size)) 0 0 ≡ 0 }
        ensures view { IfOk result (λ active. active_view active ≡
            record { state = stored_state ino (words_seen size) 0 []; jobs = [] }) }
        ensures back { IfErr result (λ failed. failed.0 ≡ size) }
    {
        let state = InodeState::<MemRegion, MemBlock>::new(alloc, ino, size)?;
        Ok(ActiveInode {
            state,
            jobs: Vec::new(alloc),
        })
    }

    /// The state of a stored file of so many bytes, of which nothing is pending: with the region of
    /// its size word and its mapped blocks, whose numbers ascend, and which hold the file's bytes.
    /// Without memory these come back.
    pub fn loaded(
        alloc: Global,
        ino: u64,
        size: MemRegion,
        stored: u64,
        blocks: Vec<Mapped<MemBlock>>,
    ) -> Result<ActiveInode, (MemRegion, Vec<Mapped<MemBlock>>, NoMemory)>
        requires number { ino < 2 ^ 32 }
        requires sized { 0 < length (words_of (words_seen size)) }
        requires stored { IsStored ino (words_seen size) stored
            (map (told_mapped seen_of) blocks.items) }
        requires file { IsLoadable stored (map (told_mapped seen_of) blocks.items) }
        ensures view { IfOk result (λ active. active_view active ≡
            record {
              state = stored_state ino (words_seen size) stored
                  (map (told_mapped seen_of) blocks.items);
              jobs = [];
            }) }
        ensures back { IfErr result (λ failed.
            (failed.0 ≡ size) × (failed.1.items ≡ blocks.items)) }
    {
        let state = InodeState::<MemRegion, MemBlock>::loaded(alloc, ino, size, stored, blocks)?;
        Ok(ActiveInode {
            state,
            jobs: Vec::new(alloc),
        })
    }
}
