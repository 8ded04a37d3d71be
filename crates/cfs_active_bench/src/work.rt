//! Writes go through an inode, one after another.

ghost use Rattle.std.specs.Prelude.{◌≡◌, ◌<◌, true, length, IfOk};
ghost use Rattle.cfs_core.specs.May.{is_change};
ghost use Rattle.cfs_pmem.specs.Images.{words_of};
ghost use Rattle.cfs_slot.specs.Regions.{of_staged, tails_of_staged, words_in};
ghost use Rattle.cfs_slot.specs.Words.{ino_of, request_of};
ghost use Rattle.cfs_inode.specs.Placing.{IsStagedFor, IsSureFor};
ghost use Rattle.cfs_active.specs.Memory.{words_seen};
ghost use Rattle.cfs_active.specs.View.{change_room};
ghost use Rattle.cfs_active_bench.specs.Writes.{IsBlockWrite};

use crate::inode::{INO, empty_file};
use crate::medium::{BLOCKS, Slots, Stock, empty_slot, full_stock};
use anyhow::anyhow;
use cfs_active::{ActiveInode, EndAnswer};
use cfs_block::BLOCK_LEN;
use cfs_file::{Bytes, Request};
use cfs_inode::{AdmitAnswer, DispatchAnswer};
use cfs_long::{are_chain, slots_for, stage_chain};
use cfs_pmem::{MemRegion, Meter};
use cfs_slot::Staged;
use std::alloc::Global;

/// An inode, the power, and a stock of blocks.
#[derive(Drop)]
pub struct Work {
    active: ActiveInode,
    meter: Meter,
    stock: Stock,
}

impl Work {
    /// An empty file, with blocks for the longest one.
    pub fn new(alloc: Global) -> anyhow::Result<Work> {
        let mut meter = Meter::calm(alloc);
        let stock = full_stock(alloc, &mut meter)?;
        Ok(Work {
            active: empty_file(alloc)?,
            meter,
            stock,
        })
    }

    /// Writes so many blocks, one behind another, and again from the first one on. Answers how
    /// many slots were collected.
    pub fn run(&mut self, alloc: Global, count: u64) -> anyhow::Result<u64> {
        let mut slots = empty_slot(alloc)?;
        let mut bytes = Bytes::from_vec(vec![in alloc; b'x'; BLOCK_LEN]?);
        let mut collected: u64 = 0;
        for number in 0..count {
            let offset = number % BLOCKS as u64 * BLOCK_LEN as u64;
            let (slots_back, bytes_back) = self.write_at(slots, offset, bytes)?;
            slots = slots_back;
            bytes = bytes_back;
            collected = collected.wrapping_add(slots.len() as u64);
        }
        Ok(collected)
    }

    /// Writes a block, and gives the slot and the bytes back.
    fn write_at(
        &mut self,
        slots: Slots,
        offset: u64,
        bytes: Bytes,
    ) -> anyhow::Result<(Slots, Bytes)> {
        if bytes.len() != BLOCK_LEN {
            return Err(anyhow!("these bytes are no block"));
        }
        let request = Request::Write { offset, bytes };
        let slots = self.write(slots, &request)?;
        match bytes_in(request) {
            Some(bytes) => Ok((slots, bytes)),
            None => Err(anyhow!("the request has no bytes")),
        }
    }

    /// The way of a write through a slot and the inode, and the slot.
    #[tactic(auto, using(crate::proofs::BlockWrites::changes))]
    fn write(&mut self, slots: Slots, request: &Request) -> anyhow::Result<Slots>
        requires { IsBlockWrite request.now }
    {
        let staged = stage(slots, &mut self.meter, request)?;
        self.active.reserve()?;
        let place = self.admit(request, staged)?;
        self.active.reserve()?;
        let DispatchAnswer::Taken(steps) = self.active.dispatch(place) else {
            return Err(anyhow!("the change does not wait"));
        };
        for _ in 0..steps {
            let _ = self.active.apply(&mut self.meter, place);
        }
        match self.active.finish(&mut self.meter, place) {
            EndAnswer::Retired(slots) => Ok(slots),
            _ => Err(anyhow!("the change is not done")),
        }
    }

    /// Admits a staged write, and answers its place.
    fn admit(&mut self, request: &Request, staged: Staged<MemRegion>) -> anyhow::Result<u64>
        requires room { 0 < change_room self.old.active }
        requires change { is_change request.now ≡ true }
        requires file { ino_of (words_of (words_seen (of_staged staged))) ≡ 2 }
        requires holds { IsStagedFor request.now
            (request_of (words_of (words_seen (of_staged staged)))
            (words_in words_seen (tails_of_staged staged))) }
        requires sure { IsSureFor request.now (words_seen (of_staged staged)) }
    {
        if self.active.count() == u64::MAX || self.active.ino() != INO {
            return Err(anyhow!("no place"));
        }
        let admission = self
            .active
            .admit(&mut self.meter, request, staged, &mut self.stock);
        match admission.answer {
            AdmitAnswer::Admitted { place, .. } => Ok(place),
            _ => Err(anyhow!("the change is refused")),
        }
    }
}

/// The bytes of a request, if it has any.
fn bytes_in(request: Request) -> Option<Bytes> {
    match request {
        Request::Write { bytes, .. } | Request::Append { bytes } => Some(bytes),
        Request::Truncate { .. } | Request::Read { .. } | Request::Sync => None,
    }
}

/// Stages a write in a slot.
#[tactic(auto, using(crate::proofs::BlockWrites::chained))]
fn stage(slots: Slots, meter: &mut Meter, request: &Request) -> anyhow::Result<Staged<MemRegion>>
    requires { IsBlockWrite request.now }
    ensures file { IfOk result (λ staged. ino_of (words_of (words_seen (of_staged staged))) ≡ 2) }
    ensures holds { IfOk result (λ staged. IsStagedFor request.now
        (request_of (words_of (words_seen (of_staged staged)))
        (words_in words_seen (tails_of_staged staged)))) }
    ensures sure { IfOk result (λ staged. IsSureFor request.now (words_seen (of_staged staged))) }
{
    if slots.len() != slots_for(request) || !are_chain(&slots) {
        return Err(anyhow!("these slots do not hold the write"));
    }
    match stage_chain(slots, meter, INO, request, 1) {
        Ok(staged) => Ok(staged),
        Err(_) => Err(anyhow!("a device fault")),
    }
}
