//! Jobs are put back.

ghost use Rattle.std.specs.Prelude.{◌≡◌};
ghost use Rattle.cfs_job.specs.Jobs.{job_view};
ghost use Rattle.cfs_inode.specs.Backs.{CameBack, HasOut, PutsBack, held_back, tile_back};
ghost use Rattle.cfs_inode.specs.Backs.{tile_from, with_put_back};
ghost use Rattle.cfs_inode.specs.View.{held_of, state_view};

use crate::state::InodeState;
use cfs_block::Block;
use cfs_job::{Job, Lent};
use cfs_pmem::Region;
use cfs_slot::Live;
use cfs_tracker::Tile;

/// A block that comes back from a job.
fn tile_from<B: Block>(lent: Option<Lent<B>>) -> Option<Tile<B>>
    ensures { result ≡ tile_from lent }
{
    match lent {
        Some(lent) => Some(Tile {
            block: lent.at,
            home: lent.block,
        }),
        None => None,
    }
}

/// A job's place, slots and blocks, as the tracker takes them back.
pub(crate) fn take_apart<R: Region + Drop, B: Block + Drop>(
    job: Job<R, B>,
) -> (u64, Live<R>, Option<Tile<B>>, Option<Tile<B>>)
    ensures { CameBack (held_of R.seen) B.seen result.0 result.1 result.2 result.3
        (job_view R.seen B.seen B.number job).place
        (held_back (job_view R.seen B.seen B.number job))
        (tile_back (job_view R.seen B.seen B.number job).first)
        (tile_back (job_view R.seen B.seen B.number job).second) }
{
    let place = job.place();
    let (live, first, second) = job.into_parts();
    (place, live, tile_from(first), tile_from(second))
}

impl<R: Region + Drop, B: Block + Drop> InodeState<R, B> {
    /// Takes back a job that the state has out, however far it came: its change waits again. No
    /// device is asked for a step.
    pub fn put_back(&mut self, job: Job<R, B>)
        requires out { HasOut (state_view R.seen B.seen self.old)
            (job_view R.seen B.seen B.number job) }
        ensures view { state_view R.seen B.seen self.new ≡
            with_put_back (state_view R.seen B.seen self.old).size
            (job_view R.seen B.seen B.number job) (state_view R.seen B.seen self.old) }
        ensures makes { PutsBack (state_view R.seen B.seen self.old)
            (job_view R.seen B.seen B.number job) (state_view R.seen B.seen self.new) }
    {
        let (place, live, first, second) = take_apart(job);
        self.tracker.put_back(place, live, first, second);
    }
}
