//! Memory for what is to come.

ghost use Rattle.std.specs.Prelude.{◌≡◌, ◌<◌, ◌≤◌, OnOk};

use crate::active::ActiveInode;
use cfs_file::NoMemory;

impl ActiveInode {
    ghost use Rattle.cfs_active.specs.View.{active_view, change_room, job_room, query_room};

    /// Takes the memory for one change, one read and one job more. No call but this one and those
    /// that make an inode takes any. Without memory there is no less room than before.
    pub fn reserve(&mut self) -> Result<(), NoMemory>
        ensures view { active_view self.new ≡
            active_view self.old }
        ensures change_ok { OnOk result (0 < change_room self.new) }
        ensures query_ok { OnOk result (0 < query_room self.new) }
        ensures job_ok { OnOk result (0 < job_room self.new) }
        ensures changes { change_room self.old ≤ change_room self.new }
        ensures queries { query_room self.old ≤ query_room self.new }
        ensures jobs { job_room self.old ≤ job_room self.new }
    {
        self.jobs.reserve(1)?;
        self.state.reserve()
    }
}
