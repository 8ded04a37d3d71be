//! Jobs end, and are put back.

ghost use Rattle.cfs_active.specs.Memory.{words_seen};
ghost use Rattle.std.specs.Prelude.{◌≡◌, true};

use crate::active::ActiveInode;
use crate::end_answer::EndAnswer;
use crate::find::position_of;
use cfs_inode::FinishAnswer;
use cfs_pmem::{MemRegion, Power};
use cfs_slot::{QUEUE_SLOTS, Slot};
use cfs_vec::FixedVec;

impl ActiveInode {
    ghost use Rattle.cfs_active.specs.Ends.{EndMakes, PutsBack, end_of, put_back_events};
    ghost use Rattle.cfs_active.specs.Makes.{QuietlyMakes};
    ghost use Rattle.cfs_active.specs.View.{active_view};

    /// Takes back the job of a place. It answers `NotOut` exactly where no such job is out,
    /// `Unfinished` exactly where the job has steps left, which stays out, and then `More` exactly
    /// where its change has blocks left, which waits for them. Else the size word is set, in two
    /// writing steps or none where it is right in every image, and the gate closed, in two writing
    /// steps: it is `Retired`, and its slots are given. `Failed` comes for a device fault alone:
    /// then the change waits again, and is applied where the size word was set.
    pub fn finish<P: Power>(
        &mut self,
        power: &mut P,
        place: u64,
    ) -> EndAnswer<FixedVec<Slot<MemRegion>, QUEUE_SLOTS>>
        ensures { EndMakes true place (end_of words_seen result)
            (P.asked power.old) (active_view self.old)
            (P.asked power.new) (active_view self.new) }
    {
        let Some(at) = position_of(&self.jobs, place) else {
            return EndAnswer::NotOut;
        };
        let left = self.jobs[at].left();
        if left > 0 {
            return EndAnswer::Unfinished(left);
        }
        let job = self.jobs.remove(at);
        match self.state.finish(power, job) {
            FinishAnswer::Retired(slots) => EndAnswer::Retired(slots),
            FinishAnswer::More => EndAnswer::More,
            FinishAnswer::Failed => EndAnswer::Failed,
            FinishAnswer::Unfinished(_) => unreachable!(),
        }
    }

    /// Puts back the job of a place, however far it came: its change waits again. Answers whether
    /// there was such a job. No device is asked for a step.
    pub fn put_back(&mut self, place: u64) -> bool
        ensures puts { PutsBack place result (active_view self.old)
            (active_view self.new) }
        ensures makes { QuietlyMakes
            (put_back_events place result (active_view self.old))
            (active_view self.old)
            (active_view self.new) }
    {
        let Some(at) = position_of(&self.jobs, place) else {
            return false;
        };
        let back = self.jobs.remove(at);
        self.state.put_back(back);
        true
    }
}
