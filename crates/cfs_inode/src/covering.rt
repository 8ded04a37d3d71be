//! All changes that one covers become no-ops.

ghost use Rattle.cfs_inode.specs.Covering.{MarksCovered};
ghost use Rattle.cfs_inode.specs.View.{state_view};

use crate::state::InodeState;
use cfs_block::Block;
use cfs_pmem::{Power, Region};

impl<R: Region + Drop, B: Block + Drop> InodeState<R, B> {
    /// Marks each change that waits and that the live one at `by` covers, unless a read between
    /// them that is not answered needs it, by ascending place. Answers how many became no-ops: one
    /// whose mark failed waits on.
    pub(crate) fn mark_covered<P: Power>(&mut self, power: &mut P, by: u64) -> u64
        ensures { MarksCovered R.obeys_power by result
            (P.asked power.old) (state_view R.seen B.seen self.old)
            (P.asked power.new) (state_view R.seen B.seen self.new) }
    {
        let mut after = 0;
        let mut marked = 0;
        while let Some(place) = self.tracker.next_mark(by, after) {
            marked += self.mark(power, place, by).count();
            after = place;
        }
        marked
    }
}
