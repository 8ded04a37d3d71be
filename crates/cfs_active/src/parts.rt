//! A state and its jobs are taken apart.

ghost use Rattle.cfs_block.specs.MemoryBlocks.{number_of, seen_of};
ghost use Rattle.cfs_active.specs.Memory.{words_seen};
ghost use Rattle.std.specs.Prelude.{◌≡◌, map};
ghost use Rattle.cfs_job.specs.Jobs.{job_view};
ghost use Rattle.cfs_inode.specs.View.{state_view};

use crate::active::ActiveInode;
use cfs_block::MemBlock;
use cfs_inode::InodeState;
use cfs_job::Job;
use cfs_pmem::MemRegion;

impl ActiveInode {
    ghost use Rattle.cfs_active.specs.View.{active_view};

    /// The state, and the jobs that are out.
    pub fn into_parts(
        self,
    ) -> (
        InodeState<MemRegion, MemBlock>,
        Vec<Job<MemRegion, MemBlock>>,
    )
        ensures state { state_view words_seen seen_of result.0 ≡
            (active_view self).state }
        ensures jobs { map (job_view words_seen seen_of number_of) result.1.items ≡
            (active_view self).jobs }
    {
        let ActiveInode { state, jobs } = self;
        (state, jobs)
    }
}
