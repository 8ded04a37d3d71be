//! States are made.

ghost use Rattle.std.specs.Prelude.{◌≡◌, ◌<◌, ℕ, [], IfErr, IfOk, get_or, length, map};
ghost use Rattle.cfs_file.specs.declared.sizes.TheConstants.{FILE_BLOCKS};
ghost use Rattle.cfs_pmem.specs.Images.{IsSure, words_of};
ghost use Rattle.cfs_core.specs.Fresh.{IsEmpty};
ghost use Rattle.cfs_core.specs.declared.inode_core.Core.{Core};
ghost use Rattle.cfs_tracker.specs.View.{view_of};
ghost use Rattle.cfs_inode.specs.New.{IsStored, StandsFor, brought, stored_state, stored_world};
ghost use Rattle.cfs_inode.specs.New.{told_mapped};
ghost use Rattle.cfs_inode.specs.Stands.{Together};
ghost use Rattle.cfs_inode.specs.View.{state_view};

use crate::mapped::Mapped;
use crate::state::{InodeState, State};
use cfs_block::Block;
use cfs_file::NoMemory;
use cfs_pmem::Region;
use cfs_tracker::Tracker;
use std::alloc::Global;

/// Brings in the blocks of a stored file.
fn bring_all<S: Drop, D: Drop, B: Drop>(tracker: &mut Tracker<S, D, B>, blocks: Vec<Mapped<B>>)
    requires { (k : ℕ) (d : Mapped B) → k < length blocks.items →
        (get_or blocks.items k d).at < FILE_BLOCKS }
    ensures { view_of tracker.new ≡ brought blocks.items (view_of tracker.old) }
{
    for mapped in blocks {
        let Mapped { at, block } = mapped;
        tracker.bring(at, block);
    }
}

impl<R: Region + Drop, B: Block + Drop> InodeState<R, B> {
    /// The state of an empty file without blocks. Without memory the region comes back.
    pub fn new(alloc: Global, ino: u64, size: R) -> Result<InodeState<R, B>, (R, NoMemory)>
        requires sure { IsSure (R.seen size) }
        requires empty { get_or (words_of (R.seen size)) 0 0 ≡ 0 }
        ensures view { IfOk result (λ state.
            state_view R.seen B.seen state ≡ stored_state ino (R.seen size) 0 []) }
        ensures stands { IfOk result (λ state. (core : Core) → IsEmpty core →
            Together (state_view R.seen B.seen state) [] core (stored_world (R.seen size) [])) }
        ensures back { IfErr result (λ failed. failed.0 ≡ size) }
    {
        match Tracker::stored(alloc, 0) {
            Ok(tracker) => Ok(State { ino, size, tracker }),
            Err(error) => Err((size, error)),
        }
    }

    /// The state of a stored file of so many bytes, of which nothing is pending: with the region of
    /// its size word and its mapped blocks, whose numbers ascend. Without memory these come back.
    pub fn loaded(
        alloc: Global,
        ino: u64,
        size: R,
        stored: u64,
        blocks: Vec<Mapped<B>>,
    ) -> Result<InodeState<R, B>, (R, Vec<Mapped<B>>, NoMemory)>
        requires { IsStored ino (R.seen size) stored (map (told_mapped B.seen) blocks.items) }
        ensures view { IfOk result (λ state. state_view R.seen B.seen state ≡
            stored_state ino (R.seen size) stored (map (told_mapped B.seen) blocks.items)) }
        ensures stands { IfOk result (λ state. StandsFor (R.seen size) stored
            (map (told_mapped B.seen) blocks.items) (state_view R.seen B.seen state)) }
        ensures back { IfErr result (λ failed.
            (failed.0 ≡ size) × (failed.1.items ≡ blocks.items)) }
    {
        let mut tracker = match Tracker::stored(alloc, stored) {
            Ok(tracker) => tracker,
            Err(error) => return Err((size, blocks, error)),
        };
        bring_all(&mut tracker, blocks);
        Ok(State { ino, size, tracker })
    }
}
