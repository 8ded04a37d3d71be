//! Calls of a file that ask for no grant.

ghost use Rattle.cfs_block.specs.MemoryBlocks.{seen_of};
ghost use Rattle.cfs_active.specs.Applies.{ApplyMakes};
ghost use Rattle.cfs_active.specs.Ends.{EndMakes, PutsBack, end_of as job_end, put_back_events};
ghost use Rattle.cfs_active.specs.Makes.{ActiveMakes, QuietlyMakes};
ghost use Rattle.cfs_active.specs.Memory.{words_seen};
ghost use Rattle.cfs_active.specs.Sends.{SendMakes, Sends};
ghost use Rattle.std.specs.Prelude.{◌≡◌, ◌<◌, true};
ghost use Rattle.cfs_inode.specs.Ends.{Settles, Skips, end_of, settle_events, skip_events};
ghost use Rattle.cfs_inode.specs.Trims.{Trims, trim_end, trim_events};
ghost use Rattle.cfs_tracker.specs.Trim.{next_trim};
ghost use Rattle.cfs_granted.specs.View.{KeepsGrants, job_room, life_view};

use crate::life::Life;
use cfs_active::{ApplyAnswer, EndAnswer};
use cfs_block::MemBlock;
use cfs_inode::{CloseAnswer, DispatchAnswer, TrimAnswer};
use cfs_pmem::{MemRegion, Power};
use cfs_slot::{QUEUE_SLOTS, Slot};
use cfs_vec::FixedVec;

impl Life {
    /// Closes the gate of the no-op at a place, as `ActiveInode::skip` does.
    pub fn skip<P: Power>(
        &mut self,
        power: &mut P,
        place: u64,
    ) -> CloseAnswer<FixedVec<Slot<MemRegion>, QUEUE_SLOTS>>
        ensures skips { Skips true place (end_of words_seen result)
            (P.asked power.old) (life_view self.old).active.state
            (P.asked power.new) (life_view self.new).active.state }
        ensures jobs { (life_view self.new).active.jobs ≡ (life_view self.old).active.jobs }
        ensures makes { ActiveMakes (skip_events place (end_of words_seen result))
            (P.asked power.old) (life_view self.old).active
            (P.asked power.new) (life_view self.new).active }
        ensures rest { KeepsGrants (life_view self.old) (life_view self.new) }
    {
        self.active.skip(power, place)
    }

    /// Closes the gate of the request in doubt, as `ActiveInode::settle` does.
    pub fn settle<P: Power>(
        &mut self,
        power: &mut P,
    ) -> CloseAnswer<FixedVec<Slot<MemRegion>, QUEUE_SLOTS>>
        ensures settles { Settles true (end_of words_seen result)
            (P.asked power.old) (life_view self.old).active.state
            (P.asked power.new) (life_view self.new).active.state }
        ensures jobs { (life_view self.new).active.jobs ≡ (life_view self.old).active.jobs }
        ensures makes { ActiveMakes (settle_events (end_of words_seen result))
            (P.asked power.old) (life_view self.old).active
            (P.asked power.new) (life_view self.new).active }
        ensures rest { KeepsGrants (life_view self.old) (life_view self.new) }
    {
        self.active.settle(power)
    }

    /// Gives up a block past the stored size, as `ActiveInode::trim` does.
    pub fn trim<P: Power>(&mut self, power: &mut P) -> TrimAnswer<MemBlock>
        ensures trims { Trims true true (trim_end seen_of result)
            (P.asked power.old) (life_view self.old).active.state
            (P.asked power.new) (life_view self.new).active.state }
        ensures jobs { (life_view self.new).active.jobs ≡ (life_view self.old).active.jobs }
        ensures makes { ActiveMakes
            (trim_events (next_trim (life_view self.old).active.state.tracker)
            (trim_end seen_of result))
            (P.asked power.old) (life_view self.old).active
            (P.asked power.new) (life_view self.new).active }
        ensures rest { KeepsGrants (life_view self.old) (life_view self.new) }
    {
        self.active.trim(power)
    }

    /// Gives out a job of the change that waits at a place, as `ActiveInode::dispatch` does.
    pub fn dispatch(&mut self, place: u64) -> DispatchAnswer<u32>
        requires room { 0 < job_room self.old }
        ensures sends { Sends place result (life_view self.old).active
            (life_view self.new).active }
        ensures makes { SendMakes place result (life_view self.old).active
            (life_view self.new).active }
        ensures rest { KeepsGrants (life_view self.old) (life_view self.new) }
    {
        self.active.dispatch(place)
    }

    /// Makes the next step of the job of a place, as `ActiveInode::apply` does.
    pub fn apply<P: Power>(&mut self, power: &mut P, place: u64) -> ApplyAnswer
        ensures makes { ApplyMakes true true true place result
            (P.asked power.old) (life_view self.old).active
            (P.asked power.new) (life_view self.new).active }
        ensures rest { KeepsGrants (life_view self.old) (life_view self.new) }
    {
        self.active.apply(power, place)
    }

    /// Takes back the job of a place, as `ActiveInode::finish` does.
    pub fn finish<P: Power>(
        &mut self,
        power: &mut P,
        place: u64,
    ) -> EndAnswer<FixedVec<Slot<MemRegion>, QUEUE_SLOTS>>
        ensures makes { EndMakes true place (job_end words_seen result)
            (P.asked power.old) (life_view self.old).active
            (P.asked power.new) (life_view self.new).active }
        ensures rest { KeepsGrants (life_view self.old) (life_view self.new) }
    {
        self.active.finish(power, place)
    }

    /// Puts back the job of a place, as `ActiveInode::put_back` does.
    pub fn put_back(&mut self, place: u64) -> bool
        ensures puts { PutsBack place result (life_view self.old).active
            (life_view self.new).active }
        ensures makes { QuietlyMakes
            (put_back_events place result (life_view self.old).active)
            (life_view self.old).active
            (life_view self.new).active }
        ensures rest { KeepsGrants (life_view self.old) (life_view self.new) }
    {
        self.active.put_back(place)
    }
}
