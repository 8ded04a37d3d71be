//! A block in memory, with what a crash may leave of it.
ghost use Rattle.std.specs.Prelude.{◌≡◌, ◌+◌, ◌*◌, ◌≤◌, [], true, length, IfOk, IfErr, vec_len};
ghost use Rattle.cfs_block.specs.BlockImages.{began, content_of, IsBlockImage};
ghost use Rattle.cfs_pmem.specs.Images.{patched};
ghost use Rattle.cfs_block.specs.Backed.{IsBacked};
ghost use Rattle.cfs_block.specs.Written.{block_left, after_block, is_set};
ghost use Rattle.cfs_pmem.specs.Draws.{byte_left, after_byte, each_left, after_each};
ghost use Rattle.std.proofs.Common.{rules};

use crate::block::{BLOCK_LEN, Block};
use crate::history::BlockHistory;
use crate::written;
use cfs_pmem::{DeviceFault, Dirty, Pick, Power};
use std::alloc::{AllocFailed, Global};

/// A block that keeps a durable and a present copy of its bytes and its tag, and a bit for each
/// byte that was in the range of a write since the last flush.
/// It takes no memory once it is made, and a flush costs what was written since the last one.
#[derive(Drop)]
pub struct MemBlock {
    device: u32,
    number: u32,
    durable_tag: u64,
    tag: u64,
    durable: Vec<u8>,
    present: Vec<u8>,
    written: Vec<u64>,
    dirty: Dirty,
    history: BlockHistory,
    faults: u64,
    ghost backed: { IsBacked history dirty
        record { tag = durable_tag; bytes = durable.items }
        record { tag = tag; bytes = present.items } written.items },
}

impl MemBlock {
    ghost use Rattle.cfs_block.specs.MemoryBlocks.{seen_of, number_of, faults_of};

    /// A block of this content, which is durable. Without memory for the second copy and the bits
    /// the bytes are given back.
    pub fn new(
        alloc: Global,
        device: u32,
        number: u32,
        tag: u64,
        bytes: Vec<u8>,
    ) -> Result<MemBlock, AllocFailed<Vec<u8>>>
        requires { vec_len bytes ≡ 4096 }
        ensures ok { IfOk result (λ block.
            seen_of block ≡ began device record { tag = tag; bytes = bytes.items }) }
        ensures number { IfOk result (λ block. number_of block ≡ number) }
        ensures faults { IfOk result (λ block. faults_of block ≡ 0) }
        ensures err { IfErr result (λ refused. refused.value ≡ bytes) }
    {
        match (
            Vec::from_slice(alloc, &bytes),
            vec![in alloc; 0; BLOCK_LEN / 64],
        ) {
            (Ok(durable), Ok(written)) => Ok(MemBlock {
                device,
                number,
                durable_tag: tag,
                tag,
                durable,
                written,
                dirty: Dirty::none(BLOCK_LEN as u32),
                history: BlockHistory::of(tag, &bytes),
                present: bytes,
                faults: 0,
            }),
            _ => Err(AllocFailed { value: bytes }),
        }
    }

    /// The bytes now.
    pub fn bytes(&self) -> &[u8]
        ensures { result.now ≡ (content_of (seen_of self.now)).bytes }
    {
        &self.present
    }

    /// The tag now.
    pub fn tag_word(&self) -> u64
        ensures { result ≡ (content_of (seen_of self.now)).tag }
    {
        self.tag
    }

    /// Loses power: one image is left, as the pick says, the tag first and then byte by byte, and
    /// both copies and all that a later crash may leave are that image.
    /// The clock begins anew.
    pub fn crash(&mut self, pick: &mut Pick)
        ensures image { IsBlockImage (seen_of self.old).history (content_of (seen_of self.new)) }
        ensures left { seen_of self.new ≡
            began (seen_of self.old).device (block_left pick.old (seen_of self.old).history) }
        ensures pick { pick.new ≡ after_block pick.old (seen_of self.old).history }
        ensures number { number_of self.new ≡ number_of self.old }
        ensures faults { faults_of self.new ≡ faults_of self.old }
    {
        self.tag = pick.word(self.durable_tag, self.tag);
        self.durable_tag = self.tag;
        leave(pick, &self.written, &mut self.durable, &mut self.present);
        written::clear(&mut self.written, self.dirty);
        self.dirty = Dirty::none(BLOCK_LEN as u32);
        self.history = BlockHistory::of(self.tag, &self.present);
    }
}

/// Writes bytes over others from `from` on.
#[inline]
fn put(present: &mut Vec<u8>, from: usize, bytes: &[u8])
    requires { from + length bytes.now ≤ length present.old.items }
    ensures { present.new.items ≡ patched present.old.items from bytes.now }
{
    present[from..from + bytes.len()].copy_from_slice(bytes);
}

/// Replaces both copies of the bytes by what the pick leaves of them.
fn leave(pick: &mut Pick, written: &Vec<u64>, durable: &mut Vec<u8>, present: &mut Vec<u8>)
    requires sizes { length durable.old.items ≡ length present.old.items }
    requires bits { length present.old.items ≤ 64 * length written.now.items }
    ensures present { present.new.items ≡
        each_left (λ k. byte_left (is_set written.now.items k))
        (λ k. after_byte (is_set written.now.items k))
        pick.old 0 durable.old.items present.old.items }
    ensures durable { durable.new.items ≡ present.new.items }
    ensures size { length present.new.items ≡ length present.old.items }
    ensures pick { pick.new ≡
        after_each (λ k. after_byte (is_set written.now.items k))
        pick.old 0 durable.old.items present.old.items }
{
    for i in 0..present.len() {
        let byte = pick.byte(written::is_set(written, i), durable[i], present[i]);
        durable[i] = byte;
        present[i] = byte;
    }
}

impl Block for MemBlock {
    ghost seen = { λ b. record { device = b.device; also = []; history = b.history } };

    ghost number = { λ b. b.number };

    ghost faults = { λ b. b.faults };

    ghost obeys_power = { true };

    ghost keeps_refused = { true };

    ghost full = { λ b. Prim.search rules };

    fn device(&self) -> u32 {
        self.device
    }

    fn number(&self) -> u32 {
        self.number
    }

    #[tactic(auto, using(cfs_pmem::proofs::AskLemmas::asks_one))]
    fn read<P: Power>(
        &mut self,
        power: &mut P,
        from: u32,
        out: &mut [u8],
    ) -> Result<(), DeviceFault> {
        if !power.step(self.device, false) {
            self.faults = self.faults.saturating_add(1);
            return Err(DeviceFault);
        }
        let from = from as usize;
        out.copy_from_slice(&self.present[from..from + out.len()]);
        Ok(())
    }

    #[tactic(auto, using(cfs_pmem::proofs::AskLemmas::asks_one))]
    fn write<P: Power>(
        &mut self,
        power: &mut P,
        from: u32,
        bytes: &[u8],
    ) -> Result<(), DeviceFault> {
        let to = from + bytes.len() as u32;
        // A crash may leave any bytes in the range, also of a write that failed.
        written::set_range(&mut self.written, from as usize, to as usize);
        self.dirty.add(from, to);
        let from = from as usize;
        if !power.step(self.device, true) {
            self.faults = self.faults.saturating_add(1);
            self.history
                .range(from, bytes.len(), self.tag, &self.present);
            return Err(DeviceFault);
        }
        put(&mut self.present, from, bytes);
        self.history
            .range(from, bytes.len(), self.tag, &self.present);
        Ok(())
    }

    #[tactic(auto, using(cfs_pmem::proofs::AskLemmas::asks_one))]
    fn tag<P: Power>(&mut self, power: &mut P) -> Result<u64, DeviceFault> {
        if !power.step(self.device, false) {
            self.faults = self.faults.saturating_add(1);
            return Err(DeviceFault);
        }
        Ok(self.tag)
    }

    #[tactic(auto, using(cfs_pmem::proofs::AskLemmas::asks_one))]
    fn set_tag<P: Power>(&mut self, power: &mut P, tag: u64) -> Result<(), DeviceFault> {
        if !power.step(self.device, true) {
            self.faults = self.faults.saturating_add(1);
            self.history.tag(tag, self.tag, &self.present);
            return Err(DeviceFault);
        }
        self.tag = tag;
        self.history.tag(tag, tag, &self.present);
        Ok(())
    }

    #[tactic(auto, using(cfs_pmem::proofs::AskLemmas::asks_one))]
    fn flush<P: Power>(&mut self, power: &mut P) -> Result<(), DeviceFault> {
        if !power.step(self.device, true) {
            self.faults = self.faults.saturating_add(1);
            self.history.stall(self.tag, &self.present);
            return Err(DeviceFault);
        }
        self.dirty.copy(&self.present, &mut self.durable);
        written::clear(&mut self.written, self.dirty);
        self.dirty = Dirty::none(BLOCK_LEN as u32);
        self.durable_tag = self.tag;
        self.history.flush(self.tag, &self.present);
        Ok(())
    }
}
