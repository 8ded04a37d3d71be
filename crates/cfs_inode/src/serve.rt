//! Reads are answered.

ghost use Rattle.std.specs.Prelude.{◌≡◌, ◌+◌, ◌-◌, ◌<◌, ◌≤◌, ℕ, IsTrue, OnOk, [], get_or};
ghost use Rattle.std.specs.Prelude.{if◌then◌else◌, length, nat_lt};
ghost use Rattle.cfs_file.specs.declared.sizes.TheConstants.{BLOCK_LEN};
ghost use Rattle.cfs_core.specs.Words.{end_of, start_of};
ghost use Rattle.cfs_tracker.specs.Cells.{cell_at};
ghost use Rattle.cfs_inode.specs.declared.answers.ServeAnswer.TheVariants.{NotYet};
ghost use Rattle.cfs_inode.specs.Makes.{CallMakes};
ghost use Rattle.cfs_inode.specs.Serves.{IsRead, IsReadOf, Reads, Serves, blocks_between, byte_in};
ghost use Rattle.cfs_inode.specs.Serves.{end_block, home_byte, home_device, home_devices};
ghost use Rattle.cfs_inode.specs.Serves.{lender_in, serve_events, stored_from, waits_for};
ghost use Rattle.cfs_inode.specs.View.{state_view};

use crate::answers::ServeAnswer;
use crate::state::InodeState;
use cfs_block::Block;
use cfs_file::{BLOCK_LEN, LONGEST_FILE, Span};
use cfs_pmem::{DeviceFault, Power, Region};

/// The first position of a span.
fn start_of(span: Span) -> u64
    ensures { result ≡ start_of span }
{
    match span {
        Span::Nothing => 0,
        Span::Range { from, .. } | Span::From { from } => from,
    }
}

/// The position behind the last one of a span.
fn end_of(span: Span) -> u64
    ensures { result ≡ end_of span }
{
    match span {
        Span::Nothing => 0,
        Span::Range { to, .. } => to,
        Span::From { .. } => LONGEST_FILE,
    }
}

/// The number behind that of the last block with one of the positions between these.
fn end_block(from: u64, to: u64) -> u64
    ensures { result ≡ end_block from to }
{
    if from < to {
        (to - 1) / BLOCK_LEN + 1
    } else {
        from / BLOCK_LEN
    }
}

/// Puts zeros from a place on.
fn clear_from(out: &mut [u8], from: u64)
    ensures size { length out.new ≡ length out.old }
    ensures bytes { (i : ℕ) → i < length out.old →
        get_or out.new i 0 ≡ (if nat_lt i from then get_or out.old i 0 else 0) }
{
    if from < out.len() as u64 {
        out[from as usize..].fill(0);
    }
}

impl<R: Region + Drop, B: Block + Drop> InodeState<R, B> {
    /// Answers the pending read at a place: fills `out`, which has room for its bytes, with the
    /// stored ones. A sync has none. Each block at home that holds one of them is read once. While
    /// it waits for a change, `out` stays as it is. Fails for a device fault alone: then the read
    /// is pending as before, and `out` may hold any bytes.
    pub fn serve<P: Power>(&mut self, power: &mut P, place: u64, out: &mut [u8]) -> ServeAnswer
        requires { IsRead (state_view R.seen B.seen self.old) place (length out.old) }
        ensures serves { Serves B.obeys_power place result out.new
            (P.asked power.old) (state_view R.seen B.seen self.old)
            (P.asked power.new) (state_view R.seen B.seen self.new) }
        ensures waiting { (before : ℕ) → result ≡ NotYet before → out.new ≡ out.old }
        ensures makes { CallMakes (serve_events place result out.new)
            (P.asked power.old) (state_view R.seen B.seen self.old)
            (P.asked power.new) (state_view R.seen B.seen self.new) }
    {
        let Some(read) = self.tracker.read(place) else {
            unreachable!()
        };
        let from = start_of(read.span);
        let to = end_of(read.span);
        if let Some(before) = self.waits_for(place, from, to) {
            return ServeAnswer::NotYet(before);
        }
        match self.copy(power, from, to, out) {
            Ok(()) => {
                self.tracker.served(place);
                ServeAnswer::Served
            }
            Err(_) => ServeAnswer::Failed,
        }
    }

    /// What the read of these positions at a place waits for.
    fn waits_for(&self, place: u64, from: u64, to: u64) -> Option<u64>
        requires { IsReadOf (state_view R.seen B.seen self.now) place from to }
        ensures { result ≡ waits_for (state_view R.seen B.seen self.now) place }
    {
        match self.tracker.read_blocker(place) {
            Some(before) => Some(before),
            None => self.lender(from, to),
        }
    }

    /// The place whose job has the first block with one of these positions that is lent.
    fn lender(&self, from: u64, to: u64) -> Option<u64>
        ensures { result ≡ lender_in (state_view R.seen B.seen self.now).tracker.cells from to }
    {
        for block in from / BLOCK_LEN..end_block(from, to) {
            if let Some(place) = self.tracker.lender(block) {
                return Some(place);
            }
        }
        None
    }

    /// Fills `out` with the stored bytes at these positions.
    fn copy<P: Power>(
        &mut self,
        power: &mut P,
        from: u64,
        to: u64,
        out: &mut [u8],
    ) -> Result<(), DeviceFault>
        requires { length out.old ≡ to - from }
        ensures view { state_view R.seen B.seen self.new ≡ state_view R.seen B.seen self.old }
        ensures bytes { OnOk result (out.new ≡
            stored_from (state_view R.seen B.seen self.old) from (length out.old)) }
        ensures makes { CallMakes []
            (P.asked power.old) (state_view R.seen B.seen self.old)
            (P.asked power.new) (state_view R.seen B.seen self.old) }
        ensures reads { IsTrue B.obeys_power → Reads
            (home_devices (state_view R.seen B.seen self.old).tracker.cells
            (blocks_between from to)) result (P.asked power.old) (P.asked power.new) }
    {
        self.copy_blocks(power, from, to, out)?;
        let (stored, _) = self.tracker.size();
        clear_from(out, stored.saturating_sub(from));
        Ok(())
    }

    /// Fills `out` with what the blocks at home have at these positions, and with zeros elsewhere.
    fn copy_blocks<P: Power>(
        &mut self,
        power: &mut P,
        from: u64,
        to: u64,
        out: &mut [u8],
    ) -> Result<(), DeviceFault>
        requires { length out.old ≡ to - from }
        ensures view { state_view R.seen B.seen self.new ≡ state_view R.seen B.seen self.old }
        ensures size { length out.new ≡ length out.old }
        ensures bytes { OnOk result ((i : ℕ) → i < length out.old → get_or out.new i 0 ≡
            byte_in (state_view R.seen B.seen self.old).tracker.cells (from + i)) }
        ensures makes { CallMakes []
            (P.asked power.old) (state_view R.seen B.seen self.old)
            (P.asked power.new) (state_view R.seen B.seen self.old) }
        ensures reads { IsTrue B.obeys_power → Reads
            (home_devices (state_view R.seen B.seen self.old).tracker.cells
            (blocks_between from to)) result (P.asked power.old) (P.asked power.new) }
    {
        for block in from / BLOCK_LEN..end_block(from, to) {
            let base = BLOCK_LEN * block;
            let start = from.max(base);
            let end = base + BLOCK_LEN.min(to - base);
            let piece = &mut out[(start - from) as usize..(end - from) as usize];
            self.copy_block(power, block, start - base, piece)?;
        }
        Ok(())
    }

    /// Fills `out` with the bytes of a block of the file from one of them on: of the block that is
    /// at home there, which is read once, or zeros.
    fn copy_block<P: Power>(
        &mut self,
        power: &mut P,
        block: u64,
        from: u64,
        out: &mut [u8],
    ) -> Result<(), DeviceFault>
        requires { from + length out.old ≤ BLOCK_LEN }
        ensures view { state_view R.seen B.seen self.new ≡ state_view R.seen B.seen self.old }
        ensures size { length out.new ≡ length out.old }
        ensures bytes { OnOk result ((i : ℕ) → i < length out.old → get_or out.new i 0 ≡
            home_byte (cell_at (state_view R.seen B.seen self.old).tracker.cells block)
            (from + i)) }
        ensures makes { CallMakes []
            (P.asked power.old) (state_view R.seen B.seen self.old)
            (P.asked power.new) (state_view R.seen B.seen self.old) }
        ensures reads { IsTrue B.obeys_power → Reads
            (home_device (cell_at (state_view R.seen B.seen self.old).tracker.cells block)) result
            (P.asked power.old) (P.asked power.new) }
    {
        if !self.tracker.is_home(block) {
            clear_from(out, 0);
            return Ok(());
        }
        let Some(mut home) = self.tracker.take_block(block) else {
            unreachable!()
        };
        let done = home.read(power, from as u32, out);
        self.tracker.bring(block, home);
        done
    }
}
