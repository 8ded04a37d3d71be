//! Slots that are put together again.
ghost use Rattle.std.specs.Prelude.{◌≡◌, ◌+◌, ◌≤◌, [], ◌∷◌, ◌++◌, length};
ghost use Rattle.cfs_slot.specs.Regions.{of_slot, of_slots, of_parts};
ghost use Rattle.cfs_long.specs.After.{from_last};

use cfs_pmem::Region;
use cfs_slot::{MOST_TAILS, Part, QUEUE_SLOTS, Slot};
use cfs_vec::FixedVec;

/// The slots with those of these parts behind them, in order. There must be room.
pub(crate) fn with_parts<R: Region + Drop>(
    mut slots: FixedVec<Slot<R>, QUEUE_SLOTS>,
    mut parts: FixedVec<Part<R>, MOST_TAILS>,
) -> FixedVec<Slot<R>, QUEUE_SLOTS>
    requires { length (of_slots slots) + length (of_parts parts) ≤ 16 }
    ensures { of_slots result ≡ of_slots slots ++ of_parts parts }
{
    parts.reverse();
    while let Some(part) = parts.pop() {
        slots.push(part.cancel());
    }
    slots
}

/// The slots with these behind them, of which the last one comes first. There must be room.
pub(crate) fn with_slots<R: Region + Drop>(
    mut slots: FixedVec<Slot<R>, QUEUE_SLOTS>,
    mut others: FixedVec<Slot<R>, QUEUE_SLOTS>,
) -> FixedVec<Slot<R>, QUEUE_SLOTS>
    requires { length (of_slots slots) + length (of_slots others) ≤ 16 }
    ensures { of_slots result ≡ of_slots slots ++ from_last others }
{
    while let Some(slot) = others.pop() {
        slots.push(slot);
    }
    slots
}

/// A slot alone.
pub(crate) fn one<R: Region + Drop>(slot: Slot<R>) -> FixedVec<Slot<R>, QUEUE_SLOTS>
    ensures { of_slots result ≡ of_slot slot ∷ [] }
{
    let mut slots = FixedVec::new();
    slots.push(slot);
    slots
}

/// These slots behind a head, in order. There must be room.
pub(crate) fn behind_head<R: Region + Drop>(
    head: Slot<R>,
    mut others: FixedVec<Slot<R>, QUEUE_SLOTS>,
) -> FixedVec<Slot<R>, QUEUE_SLOTS>
    requires { length (of_slots others) ≤ 15 }
    ensures { of_slots result ≡ of_slot head ∷ of_slots others }
{
    others.reverse();
    with_slots(one(head), others)
}
