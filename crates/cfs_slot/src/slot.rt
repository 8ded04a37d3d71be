//! A slot that holds no request.
ghost use Rattle.std.specs.Prelude.{◌≡◌, ◌<◌, ◌≤◌, [], drop, length, IfOk};
ghost use Rattle.cfs_pmem.specs.Faults.{HasCause};
ghost use Rattle.cfs_pmem.specs.Images.{words_of, AllImages};
ghost use Rattle.cfs_slot.specs.Operations.{stage_ops, part_ops, head_ops};
ghost use Rattle.cfs_slot.specs.Staging.{IsStageable, IsLong, IsStaged, IsPart, IsStagedLong, AreParts, staged_payload};
ghost use Rattle.cfs_slot.specs.Tails.{AreAbove};
ghost use Rattle.cfs_slot.specs.Words.{IsClosed};
ghost use Rattle.cfs_slot.specs.Writing.{WritesSlot};

use crate::layout::{LONG_WRITE, MOST_TAILS, TAIL, TAILS_UNIT};
use crate::part::Part;
use crate::slots::set_of_tails;
use crate::staged::Staged;
use crate::staging::{Fields, staged_kind, staged_offset, staged_payload, write_slot};
use cfs_file::{BLOCK_LEN, KIND_UNIT, Request};
use cfs_pmem::{Power, Region};
use cfs_vec::FixedVec;

/// A slot whose gate is closed in every image.
#[derive(Drop)]
pub struct Slot<R: Region> {
    pub(crate) region: R,
    pub ghost size: { length (words_of (R.seen region)) ≡ 518 },
    pub ghost closed: { AllImages (R.seen region) IsClosed },
}

impl<R: Region + Drop> Slot<R> {
    ghost use Rattle.cfs_slot.specs.Regions.{of_slot, of_part, of_parts, of_staged, tails_of_staged, after_part, after_stage, after_head, tails_after_head, words_in, devices_in, slot_numbers};

    /// The slot of a region whose gate is closed in every image.
    pub fn new(region: R) -> Slot<R>
        requires size { length (words_of (R.seen region)) ≡ 518 }
        requires closed { AllImages (R.seen region) IsClosed }
        ensures { of_slot result ≡ region }
    {
        Slot { region }
    }

    /// The device number of its region.
    pub fn device(&self) -> u32
        ensures { result ≡ (R.seen (of_slot self.now)).device }
    {
        self.region.device()
    }

    /// Writes a request and persists it, behind the closed gate: a write or an append of 1 to 4096
    /// bytes, or a truncate. An append is staged as a write at offset 0, and gets its offset by
    /// `set_offset`. Without a fault it makes a writing step for each of words 1 to 5 and of the
    /// payload's words, and a persist. Refuses for a device fault alone, and gives the slot back.
    #[inline(always)]
    pub fn stage<P: Power>(
        self,
        power: &mut P,
        ino: u64,
        request: &Request,
        grant: u64,
    ) -> Result<Staged<R>, Slot<R>>
        requires { IsStageable request.now }
        ensures staged { IfOk result
            (λ staged. IsStaged ino request.now grant (words_of (R.seen (of_staged staged)))) }
        ensures tails { IfOk result (λ staged. tails_of_staged staged ≡ []) }
        ensures writes { WritesSlot R.obeys_power (stage_ops ino request.now grant) result
            (P.asked power.old) (R.seen (of_slot self)) (P.asked power.new)
            (R.seen (after_stage result)) }
        ensures cause { HasCause (R.faults (of_slot self)) (R.faults (after_stage result)) result }
    {
        let Slot { mut region } = self;
        let payload = staged_payload(request);
        let fields = Fields {
            ino,
            offset: staged_offset(request),
            kind: staged_kind(request) * KIND_UNIT + payload.len() as u64,
            grant,
        };
        match write_slot(&mut region, power, fields, payload) {
            Ok(()) => Ok(Staged {
                region,
                grant,
                tails: FixedVec::new(),
            }),
            Err(_) => Err(Slot { region }),
        }
    }

    /// Writes 1 to 4096 bytes of a long write and persists them, as a tail. Without a fault it
    /// makes the steps of `stage` for as many bytes. Refuses for a device fault alone, and gives
    /// the slot back.
    pub fn stage_part<P: Power>(
        self,
        power: &mut P,
        ino: u64,
        part: &[u8],
        grant: u64,
    ) -> Result<Part<R>, Slot<R>>
        requires some { 0 < length part.now }
        requires few { length part.now ≤ 4096 }
        ensures staged { IfOk result
            (λ tail. IsPart ino part.now grant (words_of (R.seen (of_part tail)))) }
        ensures writes { WritesSlot R.obeys_power (part_ops ino part.now grant) result
            (P.asked power.old) (R.seen (of_slot self)) (P.asked power.new)
            (R.seen (after_part result)) }
        ensures cause { HasCause (R.faults (of_slot self)) (R.faults (after_part result)) result }
    {
        let Slot { mut region } = self;
        let fields = Fields {
            ino,
            offset: 0,
            kind: TAIL * KIND_UNIT + part.len() as u64,
            grant,
        };
        match write_slot(&mut region, power, fields, part) {
            Ok(()) => Ok(Part { region }),
            Err(_) => Err(Slot { region }),
        }
    }

    /// Writes the head of a long write, which has 4097 to 65,536 bytes, and persists it behind the
    /// closed gate. The tails hold the request's bytes from 4096 on, and stand in slots of the same
    /// queue above this one, ascending. Without a fault it makes the steps of `stage` for 4096
    /// bytes. Refuses for a device fault alone, and gives the slot and the tails back.
    pub fn stage_head<P: Power>(
        self,
        power: &mut P,
        ino: u64,
        request: &Request,
        grant: u64,
        tails: FixedVec<Part<R>, MOST_TAILS>,
    ) -> Result<Staged<R>, (Slot<R>, FixedVec<Part<R>, MOST_TAILS>)>
        requires long { IsLong request.now }
        requires parts { AreParts ino grant (drop 4096 (staged_payload request.now))
            (words_in R.seen (of_parts tails)) }
        requires above { AreAbove (R.seen (of_slot self)).device
            (devices_in R.seen (of_parts tails)) }
        ensures staged { IfOk result
            (λ staged. IsStagedLong ino request.now grant (slot_numbers R.seen (of_parts tails))
            (words_of (R.seen (of_staged staged))) (words_in R.seen (of_parts tails))) }
        ensures tails { tails_after_head result ≡ of_parts tails }
        ensures writes { WritesSlot R.obeys_power
            (head_ops ino request.now grant (slot_numbers R.seen (of_parts tails))) result
            (P.asked power.old) (R.seen (of_slot self)) (P.asked power.new)
            (R.seen (after_head result)) }
        ensures cause { HasCause (R.faults (of_slot self)) (R.faults (after_head result)) result }
    {
        let Slot { mut region } = self;
        let payload = staged_payload(request);
        let kind = LONG_WRITE * KIND_UNIT + (payload.len() as u64 - 1);
        let fields = Fields {
            ino,
            offset: staged_offset(request),
            kind: set_of_tails(&tails) * TAILS_UNIT + kind,
            grant,
        };
        let first = &payload[..BLOCK_LEN as usize];
        match write_slot(&mut region, power, fields, first) {
            Ok(()) => Ok(Staged {
                region,
                grant,
                tails,
            }),
            Err(_) => Err((Slot { region }, tails)),
        }
    }

    /// Gives the region back as it is.
    pub fn into_parts(self) -> R
        ensures { result ≡ of_slot self }
    {
        let Slot { region } = self;
        region
    }
}
