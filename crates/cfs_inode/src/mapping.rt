//! All blocks that a request needs are mapped.

ghost use Rattle.std.specs.Prelude.{◌≡◌, ◌≤◌, ◌<◌, ◌^◌, length, true};
ghost use Rattle.cfs_file.specs.declared.sizes.TheConstants.{LONGEST_FILE};
ghost use Rattle.cfs_file.specs.Span.{span};
ghost use Rattle.cfs_core.specs.May.{is_change};
ghost use Rattle.cfs_tracker.specs.Admit.{bare_needed, long_after};
ghost use Rattle.cfs_tracker.specs.View.{KeepsRoom, view_of};
ghost use Rattle.cfs_vec.specs.Items.{items_of};
ghost use Rattle.cfs_inode.specs.Mapping.{MapsBlocks};
ghost use Rattle.cfs_inode.specs.Tagging.{stock_of};
ghost use Rattle.cfs_inode.specs.View.{state_view};

use crate::state::InodeState;
use cfs_block::{Block, ZeroBlock};
use cfs_file::Request;
use cfs_pmem::{Power, Region};
use cfs_vec::FixedVec;

impl<R: Region + Drop, B: Block + Drop> InodeState<R, B> {
    /// Tags each block that the request needs and that is not mapped, lowest first, from a stock
    /// that has enough. Answers whether all are mapped; they are not after a device fault alone.
    pub(crate) fn map_blocks<P: Power, const N: usize>(
        &mut self,
        power: &mut P,
        request: &Request,
        stock: &mut FixedVec<ZeroBlock<B>, N>,
    ) -> bool
        requires ino { self.old.ino < 2 ^ 32 }
        requires change { is_change request.now ≡ true }
        requires fits { long_after (view_of self.old.tracker).long request.now ≤ LONGEST_FILE }
        requires stocked { bare_needed (view_of self.old.tracker).cells
            (span request.now (view_of self.old.tracker).long) ≤ length (items_of stock.old) }
        ensures maps { MapsBlocks B.obeys_power B.keeps_refused
            (span request.now (view_of self.old.tracker).long) result
            (P.asked power.old) (stock_of B.seen stock.old) (state_view R.seen B.seen self.old)
            (P.asked power.new) (stock_of B.seen stock.new) (state_view R.seen B.seen self.new) }
        ensures room { KeepsRoom self.old.tracker self.new.tracker }
    {
        while let Some(block) = self.tracker.first_unmapped(request) {
            if !self.tag(power, block, stock) {
                return false;
            }
        }
        true
    }
}
