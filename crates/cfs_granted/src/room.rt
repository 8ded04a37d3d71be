//! Memory for what is to come.

ghost use Rattle.std.specs.Prelude.{◌≡◌, ◌<◌, ◌≤◌, OnOk};
ghost use Rattle.cfs_granted.specs.View.{change_room, job_room, life_view, query_room, reader_room};

use crate::life::Life;
use cfs_file::NoMemory;

impl Life {
    /// Takes the memory for one change, one read and one job more. No call but this one and those
    /// that begin or load a file takes any. Without memory there is no less room than before.
    pub fn reserve(&mut self) -> Result<(), NoMemory>
        ensures view { life_view self.new ≡ life_view self.old }
        ensures change_ok { OnOk result (0 < change_room self.new) }
        ensures query_ok { OnOk result (0 < query_room self.new) }
        ensures reader_ok { OnOk result (0 < reader_room self.new) }
        ensures job_ok { OnOk result (0 < job_room self.new) }
        ensures changes { change_room self.old ≤ change_room self.new }
        ensures queries { query_room self.old ≤ query_room self.new }
        ensures readers { reader_room self.old ≤ reader_room self.new }
        ensures jobs { job_room self.old ≤ job_room self.new }
    {
        self.readers.reserve(1)?;
        self.active.reserve()
    }
}
