//! Gates are closed of what is not to be carried out.

ghost use Rattle.cfs_active.specs.Memory.{words_seen};
ghost use Rattle.std.specs.Prelude.{◌≡◌, true};
ghost use Rattle.cfs_inode.specs.Ends.{Settles, Skips, end_of, settle_events, skip_events};

use crate::active::ActiveInode;
use cfs_inode::CloseAnswer;
use cfs_pmem::{MemRegion, Power};
use cfs_slot::{QUEUE_SLOTS, Slot};
use cfs_vec::FixedVec;

impl ActiveInode {
    ghost use Rattle.cfs_active.specs.Makes.{ActiveMakes};
    ghost use Rattle.cfs_active.specs.View.{active_view};

    /// Closes the gate of the no-op at a place, in two writing steps, and gives its slots. It
    /// answers `Nothing` exactly where no no-op has the place, and `Failed` for a device fault
    /// alone: then the no-op stays, and its gate may be open or closed.
    pub fn skip<P: Power>(
        &mut self,
        power: &mut P,
        place: u64,
    ) -> CloseAnswer<FixedVec<Slot<MemRegion>, QUEUE_SLOTS>>
        ensures skips { Skips true place (end_of words_seen result)
            (P.asked power.old) (active_view self.old).state
            (P.asked power.new) (active_view self.new).state }
        ensures jobs { (active_view self.new).jobs ≡
            (active_view self.old).jobs }
        ensures makes { ActiveMakes (skip_events place (end_of words_seen result))
            (P.asked power.old) (active_view self.old)
            (P.asked power.new) (active_view self.new) }
    {
        self.state.skip(power, place)
    }

    /// Closes the gate of the request in doubt, in two writing steps, and gives its slots. It
    /// answers `Nothing` exactly where nothing is in doubt, and `Failed` for a device fault alone:
    /// then the request is still in doubt.
    pub fn settle<P: Power>(
        &mut self,
        power: &mut P,
    ) -> CloseAnswer<FixedVec<Slot<MemRegion>, QUEUE_SLOTS>>
        ensures settles { Settles true (end_of words_seen result)
            (P.asked power.old) (active_view self.old).state
            (P.asked power.new) (active_view self.new).state }
        ensures jobs { (active_view self.new).jobs ≡
            (active_view self.old).jobs }
        ensures makes { ActiveMakes (settle_events (end_of words_seen result))
            (P.asked power.old) (active_view self.old)
            (P.asked power.new) (active_view self.new) }
    {
        self.state.settle(power)
    }
}
