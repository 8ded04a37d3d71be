//! Blocks are tagged.

ghost use Rattle.std.specs.Prelude.{◌≡◌, ◌+◌, ◌<◌, ◌^◌, false, length, true};
ghost use Rattle.cfs_file.specs.declared.sizes.TheConstants.{FILE_BLOCKS};
ghost use Rattle.cfs_medium.specs.Store.{tag_of};
ghost use Rattle.cfs_tracker.specs.Admit.{is_mapped};
ghost use Rattle.cfs_tracker.specs.Cells.{cell_at, is_bare};
ghost use Rattle.cfs_tracker.specs.View.{KeepsRoom, view_of};
ghost use Rattle.cfs_vec.specs.Items.{items_of};
ghost use Rattle.cfs_inode.specs.Tagging.{TagMakes, Tags, TagsHome, stock_of};
ghost use Rattle.cfs_inode.specs.View.{state_view};

use crate::state::InodeState;
use cfs_block::{Block, ZeroBlock, retag};
use cfs_pmem::{Power, Region};
use cfs_vec::FixedVec;

/// The tag of a block of the file with that inode number.
fn tag_of(ino: u64, block: u64) -> u64
    requires ino { ino < 2 ^ 32 }
    requires block { block < FILE_BLOCKS }
    ensures { result ≡ tag_of ino block }
{
    ino * 65_536 + block + 1
}

impl<R: Region + Drop, B: Block + Drop> InodeState<R, B> {
    /// Tags a block for a block of the file that is not mapped: the one that is kept for it, whose
    /// last tag failed, or else the last of the stock, which then has one. It takes two writing
    /// steps. Answers whether the block is mapped; it is not after a device fault alone, and then
    /// it is kept with a tag that is unsure.
    pub(crate) fn tag<P: Power, const N: usize>(
        &mut self,
        power: &mut P,
        block: u64,
        stock: &mut FixedVec<ZeroBlock<B>, N>,
    ) -> bool
        requires ino { self.old.ino < 2 ^ 32 }
        requires file { block < FILE_BLOCKS }
        requires unmapped { is_mapped (cell_at (view_of self.old.tracker).cells block) ≡ false }
        requires stocked { is_bare (cell_at (view_of self.old.tracker).cells block) ≡ true →
            0 < length (items_of stock.old) }
        ensures tags { Tags B.obeys_power B.keeps_refused block result
            (P.asked power.old) (stock_of B.seen stock.old) (state_view R.seen B.seen self.old)
            (P.asked power.new) (stock_of B.seen stock.new) (state_view R.seen B.seen self.new) }
        ensures makes { TagMakes block result
            (P.asked power.old) (state_view R.seen B.seen self.old)
            (P.asked power.new) (state_view R.seen B.seen self.new) }
        ensures room { KeepsRoom self.old.tracker self.new.tracker }
    {
        match self.tracker.take_block(block) {
            Some(home) => self.tag_home(power, block, home),
            None => match stock.pop() {
                Some(zero) => self.tag_home(power, block, zero.into_block()),
                None => unreachable!(),
            },
        }
    }

    /// Tags this block, which is not mapped yet.
    fn tag_home<P: Power>(&mut self, power: &mut P, block: u64, home: B) -> bool
        requires ino { self.old.ino < 2 ^ 32 }
        requires file { block < FILE_BLOCKS }
        requires bare { is_bare (cell_at (view_of self.old.tracker).cells block) ≡ true }
        ensures tags { TagsHome B.seen B.obeys_power B.keeps_refused block home result
            (P.asked power.old) self.old (P.asked power.new) self.new }
        ensures room { KeepsRoom self.old.tracker self.new.tracker }
    {
        let mut home = home;
        match retag(&mut home, power, tag_of(self.ino, block)) {
            Ok(()) => {
                self.tracker.tagged(block, home, true);
                true
            }
            Err(_) => {
                self.tracker.tagged(block, home, false);
                false
            }
        }
    }
}
