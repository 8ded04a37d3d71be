//! Blocks past the stored size are given up.

ghost use Rattle.cfs_block.specs.MemoryBlocks.{seen_of};
ghost use Rattle.std.specs.Prelude.{◌≡◌, true};
ghost use Rattle.cfs_tracker.specs.Trim.{next_trim};
ghost use Rattle.cfs_inode.specs.Trims.{Trims, trim_end, trim_events};

use crate::active::ActiveInode;
use cfs_block::MemBlock;
use cfs_inode::TrimAnswer;
use cfs_pmem::Power;

impl ActiveInode {
    ghost use Rattle.cfs_active.specs.Makes.{ActiveMakes};
    ghost use Rattle.cfs_active.specs.View.{active_view};

    /// Gives up the lowest block that is kept, begins at or past the stored size and has no
    /// position of a live change or of the request in doubt: takes its tag away, in two writing
    /// steps. It answers `Nothing` exactly where there is none, and `Failed` for a device fault
    /// alone. It walks all blocks of the file.
    pub fn trim<P: Power>(&mut self, power: &mut P) -> TrimAnswer<MemBlock>
        ensures trims { Trims true true (trim_end seen_of result)
            (P.asked power.old) (active_view self.old).state
            (P.asked power.new) (active_view self.new).state }
        ensures jobs { (active_view self.new).jobs ≡
            (active_view self.old).jobs }
        ensures makes { ActiveMakes (trim_events
            (next_trim (active_view self.old).state.tracker)
            (trim_end seen_of result))
            (P.asked power.old) (active_view self.old)
            (P.asked power.new) (active_view self.new) }
    {
        self.state.trim(power)
    }
}
