//! A change is admitted.

ghost use Rattle.cfs_block.specs.MemoryBlocks.{seen_of};
ghost use Rattle.cfs_active.specs.Memory.{words_seen};
ghost use Rattle.std.specs.Prelude.{◌≡◌, ◌+◌, ◌<◌, ◌^◌, true};
ghost use Rattle.cfs_core.specs.May.{is_change};
ghost use Rattle.cfs_pmem.specs.Images.{words_of};
ghost use Rattle.cfs_slot.specs.Regions.{of_staged, tails_of_staged, words_in};
ghost use Rattle.cfs_slot.specs.Words.{grant_of, ino_of, request_of};
ghost use Rattle.cfs_inode.specs.Admitting.{admit_end};
ghost use Rattle.cfs_inode.specs.Ends.{end_of};
ghost use Rattle.cfs_inode.specs.Placing.{IsStagedFor, IsSureFor, staged_seens};
ghost use Rattle.cfs_inode.specs.Tagging.{stock_of};

use crate::active::ActiveInode;
use cfs_block::{MemBlock, ZeroBlock};
use cfs_file::Request;
use cfs_inode::Admission;
use cfs_pmem::{MemRegion, Power};
use cfs_slot::{QUEUE_SLOTS, Slot, Staged};
use cfs_vec::FixedVec;

impl ActiveInode {
    ghost use Rattle.cfs_active.specs.Admits.{AdmitMakes};
    ghost use Rattle.cfs_active.specs.View.{active_view, change_room};

    /// Admits a change that was staged for this inode, with blocks of a stock, and marks what it
    /// covers. Settles the request in doubt first, if there is one, and tells what became of it.
    /// Whether the grant of the slots still stands is for the caller to see.
    ///
    /// It refuses before any step, in this order: `TooBig` exactly where the file would pass its
    /// longest length, and `NeedBlocks` exactly where the stock has fewer blocks than there are
    /// blocks of the file that the change needs and that have none. `Failed` is for a device fault
    /// alone.
    pub fn admit<P: Power, const N: usize>(
        &mut self,
        power: &mut P,
        request: &Request,
        staged: Staged<MemRegion>,
        stock: &mut FixedVec<ZeroBlock<MemBlock>, N>,
    ) -> Admission<Staged<MemRegion>, FixedVec<Slot<MemRegion>, QUEUE_SLOTS>>
        requires change { is_change request.now ≡ true }
        requires places { (active_view self.old).state.tracker.count + 1
            < 2 ^ 64 }
        requires room { 0 < change_room self.old }
        requires file { ino_of (words_of (words_seen (of_staged staged))) ≡
            (active_view self.old).state.ino }
        requires staged { IsStagedFor request.now
            (request_of (words_of (words_seen (of_staged staged)))
            (words_in words_seen (tails_of_staged staged))) }
        requires sure { IsSureFor request.now (words_seen (of_staged staged)) }
        ensures { AdmitMakes true true true request.now
            (grant_of (words_of (words_seen (of_staged staged)))) (staged_seens words_seen staged)
            (end_of words_seen result.settled) (admit_end words_seen result.answer)
            (P.asked power.old) (stock_of seen_of stock.old)
            (active_view self.old)
            (P.asked power.new) (stock_of seen_of stock.new)
            (active_view self.new) }
    {
        self.state.admit(power, request, staged, stock)
    }
}
