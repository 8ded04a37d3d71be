//! Jobs are taken back, and end.

ghost use Rattle.std.specs.Prelude.{◌≡◌, ◌<◌, length};
ghost use Rattle.cfs_job.specs.Jobs.{job_view};
ghost use Rattle.cfs_pmem.specs.Images.{words_of};
ghost use Rattle.cfs_inode.specs.Backs.{HasOut};
ghost use Rattle.cfs_inode.specs.Finishing.{FinishMakes, Finishes, finish_end};
ghost use Rattle.cfs_inode.specs.View.{state_view};

use crate::finish_answer::FinishAnswer;
use crate::put_back::take_apart;
use crate::size::{is_right, set_size};
use crate::size_answer::SizeAnswer;
use crate::state::InodeState;
use cfs_block::Block;
use cfs_job::Job;
use cfs_pmem::{Power, Region};
use cfs_slot::{QUEUE_SLOTS, Slot};
use cfs_vec::FixedVec;

impl<R: Region + Drop, B: Block + Drop> InodeState<R, B> {
    /// Takes back a job that the state has out. It answers `Unfinished` exactly where the job has
    /// steps left, and then `More` exactly where its change has blocks left, which waits for them.
    /// Else the size word is set, in two writing steps or none where it is right in every image,
    /// and the gate closed, in two writing steps: it is `Retired`, and its slots are given.
    /// `Failed` comes for a device fault alone: then the change waits again, and is applied where
    /// the size word was set.
    pub fn finish<P: Power>(
        &mut self,
        power: &mut P,
        job: Job<R, B>,
    ) -> FinishAnswer<Job<R, B>, FixedVec<Slot<R>, QUEUE_SLOTS>>
        requires out { HasOut (state_view R.seen B.seen self.old)
            (job_view R.seen B.seen B.number job) }
        requires sized { 0 < length (words_of (state_view R.seen B.seen self.old).size) }
        ensures finishes { Finishes R.obeys_power (finish_end R.seen B.seen B.number result)
            (P.asked power.old) (state_view R.seen B.seen self.old)
            (job_view R.seen B.seen B.number job)
            (P.asked power.new) (state_view R.seen B.seen self.new) }
        ensures makes { FinishMakes R.obeys_power (finish_end R.seen B.seen B.number result)
            (P.asked power.old) (state_view R.seen B.seen self.old)
            (job_view R.seen B.seen B.number job)
            (P.asked power.new) (state_view R.seen B.seen self.new) }
    {
        if job.left() > 0 {
            return FinishAnswer::Unfinished(job);
        }
        let (place, live, first, second) = take_apart(job);
        if !self.tracker.is_last(place) {
            self.tracker.more(place, live, first, second);
            return FinishAnswer::More;
        }
        let wanted = self.tracker.size_after(place);
        let right = is_right(self.tracker.size(), wanted);
        match set_size(&mut self.size, power, right, wanted) {
            SizeAnswer::Set => match live.close_gate(power) {
                Ok(slots) => {
                    self.tracker.retired(place, first, second);
                    FinishAnswer::Retired(slots)
                }
                Err(live) => {
                    self.tracker.applied(place, live, first, second);
                    FinishAnswer::Failed
                }
            },
            SizeAnswer::Unwritten => {
                self.tracker.put_back(place, live, first, second);
                FinishAnswer::Failed
            }
            SizeAnswer::Unkept => {
                self.tracker.size_unsure(place, live, first, second);
                FinishAnswer::Failed
            }
        }
    }
}
