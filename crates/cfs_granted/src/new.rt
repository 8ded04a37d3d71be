//! States are made.

ghost use Rattle.cfs_block.specs.MemoryBlocks.{seen_of};
ghost use Rattle.cfs_active.specs.Loads.{IsLoadable};
ghost use Rattle.cfs_active.specs.Memory.{words_seen};
ghost use Rattle.cfs_active.specs.View.{active_view};
ghost use Rattle.std.specs.Prelude.{◌≡◌, ◌<◌, ◌^◌, [], IfErr, IfOk, None, get_or, length, map};
ghost use Rattle.cfs_pmem.specs.Images.{IsSure, words_of};
ghost use Rattle.cfs_inode.specs.New.{IsStored, stored_state, told_mapped};
ghost use Rattle.cfs_granted.specs.Attaching.{no_rows};
ghost use Rattle.cfs_granted.specs.Idle.{IsIdle};
ghost use Rattle.cfs_granted.specs.Lending.{IsWithJobs};
ghost use Rattle.cfs_granted.specs.View.{file_view, free, life, life_view};

use crate::file_state::FileState;
use crate::free::Free;
use crate::life::Life;
use cfs_active::ActiveInode;
use cfs_block::MemBlock;
use cfs_file::NoMemory;
use cfs_grants::{Grants, MOST_QUEUES};
use cfs_inode::Mapped;
use cfs_pmem::MemRegion;
use std::alloc::Global;

impl FileState {
    /// A record that is free and had no file since the mount, with the region of its size word,
    /// which is one word. It takes no memory.
    pub fn new(size: MemRegion) -> FileState
        requires word { length (words_of (words_seen size)) ≡ 1 }
        requires sure { IsSure (words_seen size) }
        requires empty { get_or (words_of (words_seen size)) 0 0 ≡ 0 }
        ensures { file_view result ≡ free 0 (words_seen size) }
    {
        FileState::Free(Free { latest: 0, size })
    }

    /// The record of a stored file of so many bytes, of which nothing is pending and for which there
    /// is no grant: with the region of its size word and its mapped blocks, whose numbers ascend,
    /// and which hold the file's bytes. Without memory these come back.
    pub fn loaded(
        alloc: Global,
        ino: u64,
        size: MemRegion,
        stored: u64,
        blocks: Vec<Mapped<MemBlock>>,
    ) -> Result<FileState, (MemRegion, Vec<Mapped<MemBlock>>, NoMemory)>
        requires number { ino < 2 ^ 32 }
        requires word { length (words_of (words_seen size)) ≡ 1 }
        requires stored { IsStored ino (words_seen size) stored
            (map (told_mapped seen_of) blocks.items) }
        requires file { IsLoadable stored (map (told_mapped seen_of) blocks.items) }
        ensures view { IfOk result (λ file. file_view file ≡ life (record {
          active = record {
            state = stored_state ino (words_seen size) stored
                (map (told_mapped seen_of) blocks.items);
            jobs = [];
          };
          grants = no_rows;
          readers = [];
        })) }
        ensures back { IfErr result (λ failed.
            (failed.0 ≡ size) × (failed.1.items ≡ blocks.items)) }
    {
        let active = ActiveInode::loaded(alloc, ino, size, stored, blocks)?;
        Ok(FileState::Life(Life::ungranted(alloc, active)))
    }
}

impl Life {
    /// A file of which nothing is pending, without a grant.
    pub(crate) fn ungranted(alloc: Global, active: ActiveInode) -> Life
        requires idle { IsIdle (active_view active).state }
        requires none { IsWithJobs (active_view active) }
        ensures { life_view result ≡
            record { active = active_view active; grants = no_rows; readers = [] } }
    {
        Life {
            active,
            grants: Grants::new(MOST_QUEUES),
            readers: Vec::new(alloc),
        }
    }
}
