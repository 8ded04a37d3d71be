//! Blocks past the stored size are given up.

ghost use Rattle.cfs_inode.specs.View.{state_view};
ghost use Rattle.cfs_inode.specs.Trims.{TrimMakes, Trims, trim_end};

use crate::state::InodeState;
use crate::trim_answer::TrimAnswer;
use cfs_block::{Block, FreeBlock, retag};
use cfs_pmem::{Power, Region};

impl<R: Region + Drop, B: Block + Drop> InodeState<R, B> {
    /// Gives up the lowest block that is kept, begins at or past the stored size and has no
    /// position of a live change or of the request in doubt: takes its tag away, in two writing
    /// steps. It answers `Nothing` exactly where there is none, and `Failed` for a device fault
    /// alone. It walks all blocks of the file.
    pub fn trim<P: Power>(&mut self, power: &mut P) -> TrimAnswer<B>
        ensures trims { Trims B.obeys_power B.keeps_refused (trim_end B.seen result)
            (P.asked power.old) (state_view R.seen B.seen self.old)
            (P.asked power.new) (state_view R.seen B.seen self.new) }
        ensures makes { TrimMakes (trim_end B.seen result)
            (P.asked power.old) (state_view R.seen B.seen self.old)
            (P.asked power.new) (state_view R.seen B.seen self.new) }
    {
        let Some(block) = self.tracker.next_trim() else {
            return TrimAnswer::Nothing;
        };
        let Some(mut home) = self.tracker.take_block(block) else {
            unreachable!()
        };
        match retag(&mut home, power, 0) {
            Ok(()) => {
                self.tracker.trimmed(block, None);
                TrimAnswer::Freed(FreeBlock::new(home))
            }
            Err(_) => {
                self.tracker.trimmed(block, Some(home));
                TrimAnswer::Failed
            }
        }
    }
}
