//! Jobs are given out.

ghost use Rattle.std.specs.Prelude.{◌≡◌};
ghost use Rattle.cfs_inode.specs.Dispatching.{DispatchMakes, Dispatches, IsReadyAt, dispatch_end};
ghost use Rattle.cfs_inode.specs.Dispatching.{lent_of};
ghost use Rattle.cfs_inode.specs.View.{state_view};

use crate::dispatch_answer::DispatchAnswer;
use crate::state::InodeState;
use cfs_block::Block;
use cfs_job::{Job, Lent};
use cfs_pmem::Region;
use cfs_tracker::{Step, Tile};

/// A block in a job's hands, as the job is given it.
fn lent_of<B: Block>(tile: Option<Tile<B>>) -> Option<Lent<B>>
    ensures { result ≡ lent_of tile }
{
    match tile {
        Some(tile) => Some(Lent {
            at: tile.block,
            block: tile.home,
        }),
        None => None,
    }
}

impl<R: Region + Drop, B: Block + Drop> InodeState<R, B> {
    /// Gives out a job of the change that waits at a place, with the next blocks that it wants: two
    /// at most, and none where it is applied. It answers `NotWaiting` exactly where no change waits
    /// there, and `NotYet` exactly where an earlier live entry or read overlaps it, with the least
    /// place of these, or else where jobs have blocks that it wants, with the least place of these.
    /// No device is asked for a step.
    pub fn dispatch(&mut self, place: u64) -> DispatchAnswer<Job<R, B>>
        requires ready { IsReadyAt (state_view R.seen B.seen self.old) place }
        ensures dispatches { Dispatches place (dispatch_end R.seen B.seen B.number result)
            (state_view R.seen B.seen self.old) (state_view R.seen B.seen self.new) }
        ensures makes { DispatchMakes place (dispatch_end R.seen B.seen B.number result)
            (state_view R.seen B.seen self.old) (state_view R.seen B.seen self.new) }
    {
        match self.tracker.step(place) {
            Step::Takes { first, second } => {
                let span = self.tracker.span(place);
                let taken = self.tracker.dispatch(place, first, second);
                let first = lent_of(taken.first);
                let second = lent_of(taken.second);
                DispatchAnswer::Taken(Job::new(self.ino, taken.slots, span, first, second))
            }
            Step::NotYet(before) => DispatchAnswer::NotYet(before),
            Step::NotWaiting => DispatchAnswer::NotWaiting,
        }
    }
}
