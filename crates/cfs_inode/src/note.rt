//! Other work is chosen while a change stands ready.

ghost use Rattle.std.specs.Prelude.{◌≡◌, []};
ghost use Rattle.cfs_tracker.specs.View.{KeepsRoom};
ghost use Rattle.cfs_inode.specs.Notes.{with_noted};
ghost use Rattle.cfs_inode.specs.Reads.{QuietlyMakes};
ghost use Rattle.cfs_inode.specs.View.{state_view};

use crate::state::InodeState;
use cfs_block::Block;
use cfs_pmem::Region;

impl<R: Region + Drop, B: Block + Drop> InodeState<R, B> {
    /// Other work was chosen while the change at a place stood ready: it counts that, up to
    /// 2^64 - 1. Nothing changes where no change is pending there. No device is asked for a step.
    pub fn note_passed(&mut self, place: u64)
        ensures view { state_view R.seen B.seen self.new ≡
            with_noted place (state_view R.seen B.seen self.old) }
        ensures makes { QuietlyMakes [] (state_view R.seen B.seen self.old)
            (state_view R.seen B.seen self.new) }
        ensures room { KeepsRoom self.old.tracker self.new.tracker }
    {
        self.tracker.note_passed(place);
    }
}
