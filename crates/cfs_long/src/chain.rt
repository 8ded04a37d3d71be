//! How a chain of slots is staged.
ghost use Rattle.std.specs.Prelude.{◌≡◌, ◌+◌, ◌<◌, ◌≤◌, [], ◌∷◌, is_ok, length, map, drop, IfOk};
ghost use Rattle.cfs_pmem.specs.AllMoments.{AreDistinct};
ghost use Rattle.cfs_pmem.specs.Images.{words_of, IsImage, IsSure};
ghost use Rattle.cfs_pmem.specs.Objects.{all_devices, MomentsOf};
ghost use Rattle.cfs_slot.specs.Regions.{of_slot, of_slots, of_staged, tails_of_staged, devices_in, words_in, slot_numbers};
ghost use Rattle.cfs_slot.specs.Staging.{IsLong, IsStageable, IsStaged, IsStagedLong, slots_for, staged_payload, staged_request};
ghost use Rattle.cfs_slot.specs.Tails.{AreAbove};
ghost use Rattle.cfs_slot.specs.Words.{request_of};
ghost use Rattle.cfs_long.specs.After.{after_chain, after_tails, from_last};
ghost use Rattle.cfs_long.specs.Chain.{AreChain, AreClosed, HasCauseAmong, IsChained, StagesChain, StagesTails};
ghost use Rattle.cfs_long.specs.Whole.{StandsWhole};

use crate::lists::{behind_head, one, with_parts, with_slots};
use cfs_file::{BLOCK_LEN, Request};
use cfs_pmem::{Power, Region};
use cfs_slot::{MOST_TAILS, Part, QUEUE_SLOTS, Slot, Staged, is_long, staged_payload};
use cfs_vec::FixedVec;

/// Stages these bytes in the slots, of which the last one comes first: 4096 in each, and the last
/// one what is left. Refuses for a device fault alone, and then gives all of them back in order.
fn stage_tails<R: Region + Drop, P: Power>(
    mut slots: FixedVec<Slot<R>, QUEUE_SLOTS>,
    power: &mut P,
    ino: u64,
    bytes: &[u8],
    grant: u64,
) -> Result<FixedVec<Part<R>, MOST_TAILS>, FixedVec<Slot<R>, QUEUE_SLOTS>>
    requires few { length (of_slots slots) ≤ 15 }
    requires some { 0 < length bytes.now }
    requires count { length (of_slots slots) ≡ slots_for (length bytes.now) }
    ensures stages { StagesTails R.seen R.faults R.obeys_power ino grant bytes.now (is_ok result)
        (P.asked power.old) (from_last slots) (P.asked power.new) (after_tails result) }
{
    let mut parts = FixedVec::new();
    let mut left = bytes;
    while let Some(slot) = slots.pop() {
        let (part, behind) = left.split_at((BLOCK_LEN as usize).min(left.len()));
        match slot.stage_part(power, ino, part, grant) {
            Ok(tail) => parts.push(tail),
            Err(slot) => {
                let mut given = with_parts(FixedVec::new(), parts);
                given.push(slot);
                return Err(with_slots(given, slots));
            }
        }
        left = behind;
    }
    Ok(parts)
}

/// Stages a request that one slot holds in this one.
fn stage_short<R: Region + Drop, P: Power>(
    head: Slot<R>,
    power: &mut P,
    ino: u64,
    request: &Request,
    grant: u64,
) -> Result<Staged<R>, FixedVec<Slot<R>, QUEUE_SLOTS>>
    requires { IsStageable request.now }
    ensures stages { StagesChain R.seen R.faults R.obeys_power ino grant request.now []
        (is_ok result)
        (P.asked power.old) (of_slot head ∷ []) (P.asked power.new) (after_chain result) }
    ensures staged { IfOk result (λ staged.
        IsStaged ino request.now grant (words_of (R.seen (of_staged staged)))) }
    ensures tails { IfOk result (λ staged. tails_of_staged staged ≡ []) }
    ensures sure { IfOk result (λ staged. IsSure (R.seen (of_staged staged))) }
{
    match head.stage(power, ino, request, grant) {
        Ok(staged) => Ok(staged),
        Err(slot) => Err(one(slot)),
    }
}

/// Stages a long write: its tails in the other slots, of which the last one comes first, and then
/// its head.
fn stage_long<R: Region + Drop, P: Power>(
    head: Slot<R>,
    others: FixedVec<Slot<R>, QUEUE_SLOTS>,
    power: &mut P,
    ino: u64,
    request: &Request,
    grant: u64,
) -> Result<Staged<R>, FixedVec<Slot<R>, QUEUE_SLOTS>>
    requires long { IsLong request.now }
    requires count { length (of_slots others) + 1
        ≡ slots_for (length (staged_payload request.now)) }
    requires above { AreAbove (R.seen (of_slot head)).device
        (devices_in R.seen (from_last others)) }
    ensures stages { StagesChain R.seen R.faults R.obeys_power ino grant request.now
        (slot_numbers R.seen (from_last others)) (is_ok result)
        (P.asked power.old) (of_slot head ∷ from_last others)
        (P.asked power.new) (after_chain result) }
    ensures staged { IfOk result (λ staged.
        IsStagedLong ino request.now grant (slot_numbers R.seen (tails_of_staged staged))
        (words_of (R.seen (of_staged staged))) (words_in R.seen (tails_of_staged staged))) }
    ensures sure { IfOk result (λ staged. IsSure (R.seen (of_staged staged))) }
{
    let payload = staged_payload(request);
    let behind = &payload[BLOCK_LEN as usize..];
    match stage_tails(others, power, ino, behind, grant) {
        Ok(tails) => match head.stage_head(power, ino, request, grant, tails) {
            Ok(staged) => Ok(staged),
            Err((head, tails)) => Err(with_parts(one(head), tails)),
        },
        Err(others) => Err(behind_head(head, others)),
    }
}

/// Stages a request in slots of one queue, ascending, of which the first is its head: a write or an
/// append of 1 to 65,536 bytes, or a truncate, in as many slots as it takes. A long write stages
/// its tails, ascending, and then its head. Refuses for a device fault alone, and then gives the
/// slots back, in order.
pub fn stage_chain<R: Region + Drop, P: Power>(
    mut slots: FixedVec<Slot<R>, QUEUE_SLOTS>,
    power: &mut P,
    ino: u64,
    request: &Request,
    grant: u64,
) -> Result<Staged<R>, FixedVec<Slot<R>, QUEUE_SLOTS>>
    requires chained { IsChained request.now }
    requires count { length (of_slots slots) ≡ slots_for (length (staged_payload request.now)) }
    requires chain { AreChain (devices_in R.seen (of_slots slots)) }
    ensures stages { StagesChain R.seen R.faults R.obeys_power ino grant request.now
        (slot_numbers R.seen (drop 1 (of_slots slots))) (is_ok result)
        (P.asked power.old) (of_slots slots) (P.asked power.new) (after_chain result) }
    ensures short { IsStageable request.now → IfOk result (λ staged.
        IsStaged ino request.now grant (words_of (R.seen (of_staged staged)))) }
    ensures long { IsLong request.now → IfOk result (λ staged.
        IsStagedLong ino request.now grant (slot_numbers R.seen (tails_of_staged staged))
        (words_of (R.seen (of_staged staged))) (words_in R.seen (tails_of_staged staged))) }
    // The request stands whole in its slots together.
    ensures whole { IfOk result (λ staged.
        request_of (words_of (R.seen (of_staged staged))) (words_in R.seen (tails_of_staged staged))
        ≡ staged_request request.now) }
    ensures sure { IfOk result (λ staged. IsSure (R.seen (of_staged staged))) }
    // And so it does in every image of these slots together.
    ensures stands { IfOk result (λ staged. StandsWhole (staged_request request.now)
        (map R.seen (of_staged staged ∷ tails_of_staged staged))) }
    ensures slots { devices_in R.seen (after_chain result) ≡ devices_in R.seen (of_slots slots) }
    // At each moment the gates of all the slots are closed in every image.
    ensures moments { AreDistinct (all_devices (map R.seen (of_slots slots))) →
        MomentsOf IsImage AreClosed (P.asked power.old) (map R.seen (of_slots slots))
        (P.asked power.new) (map R.seen (after_chain result)) }
    ensures cause { HasCauseAmong (map R.faults (of_slots slots))
        (map R.faults (after_chain result)) result }
{
    slots.reverse();
    let Some(head) = slots.pop() else {
        unreachable!()
    };
    if is_long(request) {
        stage_long(head, slots, power, ino, request, grant)
    } else {
        stage_short(head, power, ino, request, grant)
    }
}
