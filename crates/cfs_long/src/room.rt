//! Which slots a request takes.
ghost use Rattle.std.specs.Prelude.{◌≡◌, ◌↔◌, ◌-◌, ◌<◌, IsTrue, length};
ghost use Rattle.std.proofs.Math.ListN.{get_or};
ghost use Rattle.cfs_slot.specs.Regions.{of_slots, devices_in};
ghost use Rattle.cfs_slot.specs.Staging.{slots_for, staged_payload};
ghost use Rattle.cfs_slot.specs.Tails.{queue_of};
ghost use Rattle.cfs_long.specs.Chain.{AreChain, IsAbove, IsChained};

use cfs_file::{BLOCK_LEN, Request};
use cfs_pmem::Region;
use cfs_slot::{FIRST_SLOT, QUEUE_SLOTS, Slot, is_long, is_stageable, staged_payload};
use cfs_vec::FixedVec;

/// Whether a chain of slots can hold the request: a write or an append of 1 to 65,536 bytes, or a
/// truncate.
pub fn is_chained(request: &Request) -> bool
    ensures { IsTrue result ↔ IsChained request.now }
{
    if is_stageable(request) {
        return true;
    }
    is_long(request)
}

/// How many slots a request takes: one for each 4096 bytes of a write or an append that are begun,
/// and one for any other request.
pub fn slots_for(request: &Request) -> usize
    ensures { result ≡ slots_for (length (staged_payload request.now)) }
{
    let payload = staged_payload(request);
    payload.len().saturating_sub(1) / BLOCK_LEN as usize + 1
}

/// Whether these are slots of one queue, ascending, and there is one at least.
pub fn are_chain<R: Region + Drop>(slots: &FixedVec<Slot<R>, QUEUE_SLOTS>) -> bool
    ensures { IsTrue result ↔ AreChain (devices_in R.seen (of_slots slots.now)) }
{
    if slots.is_empty() {
        return false;
    }
    for at in 1..slots.len() {
        if !is_next(slots, at) {
            return false;
        }
    }
    true
}

/// Whether a slot is of the queue of the one before it, and stands above it.
fn is_next<R: Region + Drop>(slots: &FixedVec<Slot<R>, QUEUE_SLOTS>, at: usize) -> bool
    requires some { 0 < at }
    requires within { at < length (of_slots slots.now) }
    ensures { IsTrue result ↔
        IsAbove (get_or (devices_in R.seen (of_slots slots.now)) (at - 1) 0)
        (get_or (devices_in R.seen (of_slots slots.now)) at 0) }
{
    let below = slots.at(at - 1);
    let next = slots.at(at);
    let first = below.device();
    let above = next.device();
    is_above(first, above)
}

/// Whether the slot with the next device number is of the queue of the first one, and above it.
fn is_above(first: u32, next: u32) -> bool
    ensures { IsTrue result ↔ IsAbove first next }
{
    FIRST_SLOT <= first && first < next && queue(next) == queue(first)
}

/// The queue of a slot.
fn queue(device: u32) -> u32
    ensures { result ≡ queue_of device }
{
    device.saturating_sub(FIRST_SLOT) / QUEUE_SLOTS as u32
}
