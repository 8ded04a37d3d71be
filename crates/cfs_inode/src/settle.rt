//! The request in doubt is closed.

ghost use Rattle.cfs_inode.specs.View.{state_view};
ghost use Rattle.cfs_inode.specs.Ends.{Settles, end_of, settle_events};
ghost use Rattle.cfs_inode.specs.Makes.{CallMakes};
ghost use Rattle.cfs_tracker.specs.View.{KeepsRoom};

use crate::answers::CloseAnswer;
use crate::state::InodeState;
use cfs_block::Block;
use cfs_pmem::{Power, Region};
use cfs_slot::{QUEUE_SLOTS, Slot};
use cfs_vec::FixedVec;

impl<R: Region + Drop, B: Block + Drop> InodeState<R, B> {
    /// Closes the gate of the request in doubt, in two writing steps, and gives its slots. It
    /// answers `Nothing` exactly where nothing is in doubt, and `Failed` for a device fault alone:
    /// then the request is still in doubt.
    pub fn settle<P: Power>(&mut self, power: &mut P) -> CloseAnswer<FixedVec<Slot<R>, QUEUE_SLOTS>>
        ensures settles { Settles R.obeys_power (end_of R.seen result)
            (P.asked power.old) (state_view R.seen B.seen self.old)
            (P.asked power.new) (state_view R.seen B.seen self.new) }
        ensures makes { CallMakes (settle_events (end_of R.seen result))
            (P.asked power.old) (state_view R.seen B.seen self.old)
            (P.asked power.new) (state_view R.seen B.seen self.new) }
        ensures room { KeepsRoom self.old.tracker self.new.tracker }
    {
        let Some(doubt) = self.tracker.take_doubt() else {
            return CloseAnswer::Nothing;
        };
        match doubt.settle(power) {
            Ok(slots) => {
                self.tracker.settled();
                CloseAnswer::Closed(slots)
            }
            Err(doubt) => {
                self.tracker.put_doubt(doubt);
                CloseAnswer::Failed
            }
        }
    }
}
