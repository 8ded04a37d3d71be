//! A job is found by the place of its change.

ghost use Rattle.std.specs.Prelude.{◌≡◌};
ghost use Rattle.std.specs.List.{position};
ghost use Rattle.cfs_active.specs.Find.{is_job_of};

use cfs_block::MemBlock;
use cfs_job::Job;
use cfs_pmem::MemRegion;

/// Where the job of a place stands among these.
pub(crate) fn position_of(jobs: &[Job<MemRegion, MemBlock>], place: u64) -> Option<usize>
    ensures { result ≡ position (λ job. is_job_of place job) jobs.now }
{
    jobs.iter().position(|job| job.place() == place)
}
