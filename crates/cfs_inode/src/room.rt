//! Memory for what is to come.

ghost use Rattle.std.specs.Prelude.{◌≡◌, ◌<◌, OnOk, vec_capacity, vec_len};
ghost use Rattle.cfs_tracker.specs.View.{KeepsRoom};
ghost use Rattle.cfs_inode.specs.View.{state_view};

use crate::state::InodeState;
use cfs_block::Block;
use cfs_file::NoMemory;
use cfs_pmem::Region;

impl<R: Region + Drop, B: Block + Drop> InodeState<R, B> {
    /// Takes the memory for one change and one read more. No call but this one and those that make
    /// a state takes any. Without memory there is no less room than before.
    pub fn reserve(&mut self) -> Result<(), NoMemory>
        ensures view { state_view R.seen B.seen self.new ≡ state_view R.seen B.seen self.old }
        ensures room { KeepsRoom self.old.tracker self.new.tracker }
        ensures entry_ok { OnOk result
            (vec_len self.new.tracker.entries < vec_capacity self.new.tracker.entries) }
        ensures read_ok { OnOk result
            (vec_len self.new.tracker.reads < vec_capacity self.new.tracker.reads) }
    {
        self.tracker.reserve()
    }
}
