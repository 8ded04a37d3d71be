//! Changes that a later one covers become no-ops.

ghost use Rattle.cfs_inode.specs.View.{state_view};
ghost use Rattle.cfs_inode.specs.Marking.{MarkMakes, Marks};

use crate::mark_answer::MarkAnswer;
use crate::state::InodeState;
use cfs_block::Block;
use cfs_pmem::{Power, Region};

impl<R: Region + Drop, B: Block + Drop> InodeState<R, B> {
    /// Marks the change that waits at a place as a no-op, since the one at `by` covers it, in two
    /// writing steps. It answers `Nothing` exactly where no change waits there, and `Failed` for a
    /// device fault alone.
    pub(crate) fn mark<P: Power>(&mut self, power: &mut P, place: u64, by: u64) -> MarkAnswer
        ensures marks { Marks R.obeys_power place result
            (P.asked power.old) (state_view R.seen B.seen self.old)
            (P.asked power.new) (state_view R.seen B.seen self.new) }
        ensures makes { MarkMakes place by result
            (P.asked power.old) (state_view R.seen B.seen self.old)
            (P.asked power.new) (state_view R.seen B.seen self.new) }
    {
        let Some(mut live) = self.tracker.take_waiting(place) else {
            return MarkAnswer::Nothing;
        };
        match live.mark_noop(power) {
            Ok(()) => {
                self.tracker.marked(place, by, live, true);
                MarkAnswer::Marked
            }
            Err(_) => {
                self.tracker.marked(place, by, live, false);
                MarkAnswer::Failed
            }
        }
    }
}
