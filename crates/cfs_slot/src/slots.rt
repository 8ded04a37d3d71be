//! All slots of a request.
ghost use Rattle.std.specs.Prelude.{◌≡◌, ◌<◌, ◌^◌, ◌∷◌};
ghost use Rattle.cfs_vec.specs.Items.{items_of};
ghost use Rattle.cfs_slot.specs.Regions.{of_slot, of_slots, of_parts, slot_numbers};
ghost use Rattle.cfs_slot.specs.Tails.{set_of, number_of};

use crate::layout::{FIRST_SLOT, MOST_TAILS, QUEUE_SLOTS};
use crate::part::Part;
use crate::slot::Slot;
use cfs_pmem::Region;
use cfs_vec::FixedVec;

/// The number of a slot in its queue.
#[inline]
fn number(device: u32) -> u32
    ensures value { result ≡ number_of device }
    ensures below { result < 16 }
{
    device.saturating_sub(FIRST_SLOT) % 16
}

/// A bit for the number of each of these slots.
pub(crate) fn set_of_tails<R: Region + Drop>(tails: &FixedVec<Part<R>, MOST_TAILS>) -> u64
    ensures value { result ≡ set_of (slot_numbers R.seen (of_parts tails.now)) }
    ensures fits { result < 2 ^ 19 }
{
    let mut set = 0;
    for at in 0..tails.len() {
        set += 1 << number(tails.at(at).device());
    }
    set
}

/// The slots of a head and its tails, in order.
#[inline(always)]
pub(crate) fn all_slots<R: Region + Drop>(
    head: Slot<R>,
    mut tails: FixedVec<Part<R>, MOST_TAILS>,
) -> FixedVec<Slot<R>, QUEUE_SLOTS>
    ensures { of_slots result ≡ of_slot head ∷ of_parts tails }
{
    let mut slots = FixedVec::new();
    slots.push(head);
    tails.reverse();
    while let Some(part) = tails.pop() {
        slots.push(part.cancel());
    }
    slots
}

/// The regions of a head and its tails, in order.
pub(crate) fn all_regions<R: Region + Drop>(
    head: R,
    mut tails: FixedVec<Part<R>, MOST_TAILS>,
) -> FixedVec<R, QUEUE_SLOTS>
    ensures { items_of result ≡ head ∷ of_parts tails }
{
    let mut regions = FixedVec::new();
    regions.push(head);
    tails.reverse();
    while let Some(part) = tails.pop() {
        regions.push(part.into_parts());
    }
    regions
}
