//! Jobs are given out and kept.

ghost use Rattle.std.specs.Prelude.{◌<◌};

use crate::active::ActiveInode;
use cfs_inode::DispatchAnswer;

impl ActiveInode {
    ghost use Rattle.cfs_active.specs.Sends.{SendMakes, Sends};
    ghost use Rattle.cfs_active.specs.View.{active_view, job_room};

    /// Gives out a job of the change that waits at a place, with the next blocks that it wants, two
    /// at most, and none where it is applied; keeps it behind the other jobs, and answers how many
    /// steps it has. It answers `NotWaiting` exactly where no change waits there, and `NotYet`
    /// exactly where an earlier live entry or read overlaps it, with the least place of these, or
    /// else where jobs have blocks that it wants, with the least place of these. No device is asked
    /// for a step.
    pub fn dispatch(&mut self, place: u64) -> DispatchAnswer<u32>
        requires room { 0 < job_room self.old }
        ensures sends { Sends place result (active_view self.old)
            (active_view self.new) }
        ensures makes { SendMakes place result (active_view self.old)
            (active_view self.new) }
    {
        match self.state.dispatch(place) {
            DispatchAnswer::Taken(job) => {
                let left = job.left();
                match self.jobs.push(job) {
                    Ok(()) => DispatchAnswer::Taken(left),
                    Err(_) => unreachable!(),
                }
            }
            DispatchAnswer::NotYet(before) => DispatchAnswer::NotYet(before),
            DispatchAnswer::NotWaiting => DispatchAnswer::NotWaiting,
        }
    }
}
