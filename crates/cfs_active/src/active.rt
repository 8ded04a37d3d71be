//! The state of one inode and its jobs that are out.

ghost use Rattle.cfs_block.specs.MemoryBlocks.{number_of, seen_of};
ghost use Rattle.cfs_active.specs.Memory.{words_seen};
ghost use Rattle.std.specs.Prelude.{map};
ghost use Rattle.cfs_job.specs.Jobs.{job_view};
ghost use Rattle.cfs_inode.specs.View.{state_view};
ghost use Rattle.cfs_active.specs.Known.{IsActive};

use cfs_block::MemBlock;
use cfs_inode::InodeState;
use cfs_job::Job;
use cfs_pmem::MemRegion;

/// The state of one inode, and the jobs of it that are out, in the order in which they were given
/// out. Its calls take a job by the place of its change.
#[derive(Drop)]
pub struct ActiveInode {
    pub(crate) state: InodeState<MemRegion, MemBlock>,
    pub(crate) jobs: Vec<Job<MemRegion, MemBlock>>,
    // Some core that is reached, and the devices that show it, are what they stand for.
    ghost known: { ∥ IsActive (state_view words_seen seen_of state)
        (map (job_view words_seen seen_of number_of) jobs.items) ∥₁ },
}
