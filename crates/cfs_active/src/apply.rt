//! Jobs make their steps.

ghost use Rattle.std.specs.Prelude.{true};

use crate::active::ActiveInode;
use crate::apply_answer::ApplyAnswer;
use crate::find::position_of;
use cfs_pmem::Power;

impl ActiveInode {
    ghost use Rattle.cfs_active.specs.Applies.{ApplyMakes};
    ghost use Rattle.cfs_active.specs.View.{active_view};

    /// Makes the next step of the job of a place, and answers how many are left. It answers
    /// `NotOut` exactly where no such job is out, and `Failed` for a device fault alone: then the
    /// step is still the next one. With no step left it does nothing.
    pub fn apply<P: Power>(&mut self, power: &mut P, place: u64) -> ApplyAnswer
        ensures { ApplyMakes true true true place result
            (P.asked power.old) (active_view self.old)
            (P.asked power.new) (active_view self.new) }
    {
        let Some(at) = position_of(&self.jobs, place) else {
            return ApplyAnswer::NotOut;
        };
        let job = &mut self.jobs[at];
        job.stands();
        match job.apply_step(power) {
            Ok(()) => ApplyAnswer::Made(job.left()),
            Err(_) => ApplyAnswer::Failed,
        }
    }
}
