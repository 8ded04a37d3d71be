//! A change is admitted under a grant.

ghost use Rattle.cfs_block.specs.MemoryBlocks.{seen_of};
ghost use Rattle.cfs_active.specs.Admits.{AdmitMakes};
ghost use Rattle.cfs_active.specs.Memory.{words_seen};
ghost use Rattle.std.specs.Prelude.{◌≡◌, ◌+◌, ◌<◌, ◌^◌, IfErr, IfOk, OnErr, is_ok, true};
ghost use Rattle.cfs_core.specs.May.{is_change};
ghost use Rattle.cfs_pmem.specs.Images.{words_of};
ghost use Rattle.cfs_slot.specs.Regions.{of_staged, tails_of_staged, words_in};
ghost use Rattle.cfs_slot.specs.Words.{grant_of, ino_of, request_of};
ghost use Rattle.cfs_inode.specs.Admitting.{admit_end};
ghost use Rattle.cfs_inode.specs.Ends.{end_of};
ghost use Rattle.cfs_inode.specs.Placing.{IsStagedFor, IsSureFor, staged_seens};
ghost use Rattle.cfs_inode.specs.Tagging.{stock_of};
ghost use Rattle.cfs_granted.specs.Rows.{may_write};
ghost use Rattle.cfs_granted.specs.View.{KeepsGrants, change_room, life_view};

use crate::denied::Denied;
use crate::life::Life;
use crate::rows::may_write;
use cfs_block::{MemBlock, ZeroBlock};
use cfs_file::Request;
use cfs_inode::Admission;
use cfs_pmem::{MemRegion, Power};
use cfs_slot::{QUEUE_SLOTS, Slot, Staged};
use cfs_vec::FixedVec;

impl Life {
    /// Admits a change that was staged for this file, as `ActiveInode::admit` does. Before that it
    /// answers `Denied`, with what was staged, exactly where no grant that stands has the number
    /// that the slots were staged under and writes. Then nothing has changed, and no step was asked
    /// for.
    pub fn admit<P: Power, const N: usize>(
        &mut self,
        power: &mut P,
        request: &Request,
        staged: Staged<MemRegion>,
        stock: &mut FixedVec<ZeroBlock<MemBlock>, N>,
    ) -> Result<
        Admission<Staged<MemRegion>, FixedVec<Slot<MemRegion>, QUEUE_SLOTS>>,
        Denied<Staged<MemRegion>>,
    >
        requires change { is_change request.now ≡ true }
        requires places { (life_view self.old).active.state.tracker.count + 1 < 2 ^ 64 }
        requires room { 0 < change_room self.old }
        requires file { ino_of (words_of (words_seen (of_staged staged))) ≡
            (life_view self.old).active.state.ino }
        requires staged { IsStagedFor request.now
            (request_of (words_of (words_seen (of_staged staged)))
            (words_in words_seen (tails_of_staged staged))) }
        requires sure { IsSureFor request.now (words_seen (of_staged staged)) }
        ensures allowed { is_ok result ≡
            may_write (grant_of (words_of (words_seen (of_staged staged))))
            (life_view self.old).grants }
        ensures admits { IfOk result (λ admission. AdmitMakes true true true request.now
            (grant_of (words_of (words_seen (of_staged staged)))) (staged_seens words_seen staged)
            (end_of words_seen admission.settled) (admit_end words_seen admission.answer)
            (P.asked power.old) (stock_of seen_of stock.old)
            (life_view self.old).active
            (P.asked power.new) (stock_of seen_of stock.new)
            (life_view self.new).active) }
        ensures back { IfErr result (λ denied. denied.back ≡ staged) }
        ensures same { OnErr result (life_view self.new ≡ life_view self.old) }
        ensures asked { OnErr result (P.asked power.new ≡ P.asked power.old) }
        ensures stock { OnErr result (stock.new ≡ stock.old) }
        ensures rest { KeepsGrants (life_view self.old) (life_view self.new) }
    {
        if !may_write(self.grants.rows(), staged.grant()) {
            return Err(Denied { back: staged });
        }
        Ok(self.active.admit(power, request, staged, stock))
    }
}
