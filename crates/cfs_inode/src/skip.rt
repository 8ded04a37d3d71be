//! No-ops are closed.

ghost use Rattle.cfs_inode.specs.View.{state_view};
ghost use Rattle.cfs_inode.specs.Ends.{Skips, end_of, skip_events};
ghost use Rattle.cfs_inode.specs.Makes.{CallMakes};

use crate::answers::CloseAnswer;
use crate::state::InodeState;
use cfs_block::Block;
use cfs_pmem::{Power, Region};
use cfs_slot::{QUEUE_SLOTS, Slot};
use cfs_vec::FixedVec;

impl<R: Region + Drop, B: Block + Drop> InodeState<R, B> {
    /// Closes the gate of the no-op at a place, in two writing steps, and gives its slots. It
    /// answers `Nothing` exactly where no no-op has the place, and `Failed` for a device fault
    /// alone: then the no-op stays, and its gate may be open or closed.
    pub fn skip<P: Power>(
        &mut self,
        power: &mut P,
        place: u64,
    ) -> CloseAnswer<FixedVec<Slot<R>, QUEUE_SLOTS>>
        ensures skips { Skips R.obeys_power place (end_of R.seen result)
            (P.asked power.old) (state_view R.seen B.seen self.old)
            (P.asked power.new) (state_view R.seen B.seen self.new) }
        ensures makes { CallMakes (skip_events place (end_of R.seen result))
            (P.asked power.old) (state_view R.seen B.seen self.old)
            (P.asked power.new) (state_view R.seen B.seen self.new) }
    {
        let Some(live) = self.tracker.take_covered(place) else {
            return CloseAnswer::Nothing;
        };
        match live.close_gate(power) {
            Ok(slots) => {
                self.tracker.skipped(place);
                CloseAnswer::Closed(slots)
            }
            Err(live) => {
                self.tracker.put_covered(place, live);
                CloseAnswer::Failed
            }
        }
    }
}
