//! A change is admitted.

ghost use Rattle.std.specs.Prelude.{◌≡◌, ◌≤◌, ◌+◌, ◌<◌, ◌^◌, length, None, true, vec_capacity};
ghost use Rattle.std.specs.Prelude.{vec_len};
ghost use Rattle.cfs_file.specs.declared.sizes.TheConstants.{LONGEST_FILE};
ghost use Rattle.cfs_file.specs.Span.{span};
ghost use Rattle.cfs_core.specs.May.{is_change};
ghost use Rattle.cfs_core.specs.Medium.{placed};
ghost use Rattle.cfs_pmem.specs.Images.{IsSure, words_of};
ghost use Rattle.cfs_slot.specs.Regions.{of_staged, tails_of_staged, words_in};
ghost use Rattle.cfs_slot.specs.Words.{grant_of, ino_of, request_of};
ghost use Rattle.cfs_tracker.specs.Admit.{MayAdmit, bare_needed, long_after};
ghost use Rattle.cfs_tracker.specs.View.{view_of};
ghost use Rattle.cfs_vec.specs.Items.{items_of};
ghost use Rattle.cfs_inode.specs.Admitting.{AdmissionMakes, ReadyMakes, SettledMakes, admit_end};
ghost use Rattle.cfs_inode.specs.Admitting.{count_in, is_here, offset_in};
ghost use Rattle.cfs_inode.specs.Ends.{end_of};
ghost use Rattle.cfs_inode.specs.Placing.{IsStagedFor, IsSureFor, staged_seens};
ghost use Rattle.cfs_inode.specs.Tagging.{stock_of};
ghost use Rattle.cfs_inode.specs.View.{state_view};

use crate::admission::Admission;
use crate::admit_answer::AdmitAnswer;
use crate::answers::CloseAnswer;
use crate::state::InodeState;
use cfs_block::{Block, ZeroBlock};
use cfs_file::Request;
use cfs_pmem::{Power, Region};
use cfs_slot::{QUEUE_SLOTS, Slot, Staged};
use cfs_vec::FixedVec;

/// Where a change stands in a file of that length; a truncate at its length.
fn offset_in(request: &Request, long: u64) -> u64
    ensures { result ≡ offset_in request.now long }
{
    match request {
        Request::Write { offset, .. } | Request::Read { offset, .. } => *offset,
        Request::Append { .. } => long,
        Request::Truncate { length } => *length,
        Request::Sync => 0,
    }
}

/// How many bytes a change has.
fn count_in(request: &Request) -> u64
    ensures { result ≡ count_in request.now }
{
    match request {
        Request::Write { bytes, .. } | Request::Append { bytes } => bytes.len() as u64,
        Request::Truncate { .. } | Request::Read { .. } | Request::Sync => 0,
    }
}

impl<R: Region + Drop, B: Block + Drop> InodeState<R, B> {
    /// Opens the gate of a change, and marks what it covers.
    fn admit_ready<P: Power>(
        &mut self,
        power: &mut P,
        request: &Request,
        staged: Staged<R>,
    ) -> AdmitAnswer<Staged<R>>
        requires admits { MayAdmit (view_of self.old.tracker) request.now }
        requires places { (view_of self.old.tracker).count + 1 < 2 ^ 64 }
        requires room { vec_len self.old.tracker.entries < vec_capacity self.old.tracker.entries }
        requires file { ino_of (words_of (R.seen (of_staged staged))) ≡ self.old.ino }
        requires holds { request_of (words_of (R.seen (of_staged staged)))
            (words_in R.seen (tails_of_staged staged)) ≡
            placed (span request.now (view_of self.old.tracker).long) request.now }
        requires sure { IsSure (R.seen (of_staged staged)) }
        ensures { ReadyMakes R.obeys_power request.now
            (grant_of (words_of (R.seen (of_staged staged)))) (staged_seens R.seen staged)
            (admit_end R.seen result)
            (P.asked power.old) (state_view R.seen B.seen self.old)
            (P.asked power.new) (state_view R.seen B.seen self.new) }
    {
        let offset = offset_in(request, self.tracker.length());
        let count = count_in(request);
        match self.open(power, request, staged) {
            Ok(place) => AdmitAnswer::Admitted {
                place,
                offset,
                count,
                marked: self.mark_covered(power, place),
            },
            Err(()) => AdmitAnswer::Failed { staged: None },
        }
    }

    /// Sets an append's offset, tags the blocks and admits the change, where nothing is in doubt.
    fn admit_settled<P: Power, const N: usize>(
        &mut self,
        power: &mut P,
        request: &Request,
        staged: Staged<R>,
        stock: &mut FixedVec<ZeroBlock<B>, N>,
    ) -> AdmitAnswer<Staged<R>>
        requires ino { self.old.ino < 2 ^ 32 }
        requires settled { (view_of self.old.tracker).doubt ≡ None }
        requires change { is_change request.now ≡ true }
        requires fits { long_after (view_of self.old.tracker).long request.now ≤ LONGEST_FILE }
        requires stocked { bare_needed (view_of self.old.tracker).cells
            (span request.now (view_of self.old.tracker).long) ≤ length (items_of stock.old) }
        requires places { (view_of self.old.tracker).count + 1 < 2 ^ 64 }
        requires room { vec_len self.old.tracker.entries < vec_capacity self.old.tracker.entries }
        requires file { ino_of (words_of (R.seen (of_staged staged))) ≡ self.old.ino }
        requires staged { IsStagedFor request.now
            (request_of (words_of (R.seen (of_staged staged)))
            (words_in R.seen (tails_of_staged staged))) }
        requires sure { IsSureFor request.now (R.seen (of_staged staged)) }
        ensures { SettledMakes R.obeys_power B.obeys_power B.keeps_refused request.now
            (grant_of (words_of (R.seen (of_staged staged)))) (staged_seens R.seen staged)
            (admit_end R.seen result)
            (P.asked power.old) (stock_of B.seen stock.old) (state_view R.seen B.seen self.old)
            (P.asked power.new) (stock_of B.seen stock.new) (state_view R.seen B.seen self.new) }
    {
        let mut staged = staged;
        if !self.place(power, request, &mut staged) {
            return AdmitAnswer::Failed {
                staged: Some(staged),
            };
        }
        if !self.map_blocks(power, request, stock) {
            return AdmitAnswer::Failed {
                staged: Some(staged),
            };
        }
        self.admit_ready(power, request, staged)
    }

    /// Admits a change that was staged for this inode, with blocks of a stock, and marks what it
    /// covers. Settles the request in doubt first, if there is one, and tells what became of it.
    /// Whether the grant of the slots still stands is for the caller to see.
    ///
    /// It refuses before any step, in this order: `TooBig` exactly where the file would pass its
    /// longest length, and `NeedBlocks` exactly where the stock has fewer blocks than there are
    /// blocks of the file that the change needs and that have none. `Failed` is for a device fault
    /// alone.
    pub fn admit<P: Power, const N: usize>(
        &mut self,
        power: &mut P,
        request: &Request,
        staged: Staged<R>,
        stock: &mut FixedVec<ZeroBlock<B>, N>,
    ) -> Admission<Staged<R>, FixedVec<Slot<R>, QUEUE_SLOTS>>
        requires ino { self.old.ino < 2 ^ 32 }
        // The slots of a request in doubt are here, as between calls.
        requires here { is_here (view_of self.old.tracker).doubt ≡ true }
        requires change { is_change request.now ≡ true }
        requires places { (view_of self.old.tracker).count + 1 < 2 ^ 64 }
        requires room { vec_len self.old.tracker.entries < vec_capacity self.old.tracker.entries }
        requires file { ino_of (words_of (R.seen (of_staged staged))) ≡ self.old.ino }
        requires staged { IsStagedFor request.now
            (request_of (words_of (R.seen (of_staged staged)))
            (words_in R.seen (tails_of_staged staged))) }
        requires sure { IsSureFor request.now (R.seen (of_staged staged)) }
        ensures { AdmissionMakes R.obeys_power B.obeys_power B.keeps_refused request.now
            (grant_of (words_of (R.seen (of_staged staged)))) (staged_seens R.seen staged)
            (end_of R.seen result.settled) (admit_end R.seen result.answer)
            (P.asked power.old) (stock_of B.seen stock.old) (state_view R.seen B.seen self.old)
            (P.asked power.new) (stock_of B.seen stock.new) (state_view R.seen B.seen self.new) }
    {
        if !self.tracker.fits(request) {
            let length = self.tracker.length();
            return Admission {
                settled: CloseAnswer::Nothing,
                answer: AdmitAnswer::TooBig { length, staged },
            };
        }
        let need = self.tracker.bare_needed(request);
        if (stock.len() as u64) < need {
            return Admission {
                settled: CloseAnswer::Nothing,
                answer: AdmitAnswer::NeedBlocks { need, staged },
            };
        }
        let settled = self.settle(power);
        if settled.is_failed() {
            return Admission {
                settled,
                answer: AdmitAnswer::Failed {
                    staged: Some(staged),
                },
            };
        }
        let answer = self.admit_settled(power, request, staged, stock);
        Admission { settled, answer }
    }
}
