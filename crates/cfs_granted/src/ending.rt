//! A file that is being emptied.

ghost use Rattle.std.specs.Prelude.{◌≡◌, false, length};
ghost use Rattle.cfs_block.specs.MemoryBlocks.{seen_of};
ghost use Rattle.cfs_pmem.specs.Images.{words_of};
ghost use Rattle.cfs_active.specs.Memory.{words_seen};
ghost use Rattle.cfs_inode.specs.View.{state_view};
ghost use Rattle.cfs_granted.specs.Ending.{IsEnding};

use cfs_block::MemBlock;
use cfs_inode::InodeState;
use cfs_pmem::MemRegion;

/// The state of a file that is no longer in the tree, whose purge has begun and is not done.
#[derive(Drop)]
pub struct Ending {
    pub(crate) state: InodeState<MemRegion, MemBlock>,
    ghost known: { IsEnding (state_view words_seen seen_of state) },
}
