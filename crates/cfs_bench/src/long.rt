//! Long writes to time: one of 65,536 bytes is staged in all slots of a queue, opened and closed
//! so many times.
ghost use Rattle.std.specs.Prelude.{◌<◌};

use anyhow::{Context, anyhow};
use cfs_file::{Bytes, LONGEST_WRITE, Request};
use cfs_image::{FIRST_SLOT, region_words};
use cfs_long::{are_chain, slots_for, stage_chain};
use cfs_pmem::{MemRegion, Meter};
use cfs_slot::{QUEUE_SLOTS, Slot, is_long};
use cfs_vec::FixedVec;
use std::alloc::{AllocError, Global};

/// The same request, so many times.
pub fn admit_all(alloc: Global, count: u64) -> anyhow::Result<()> {
    let payload = vec![in alloc; b'x'; LONGEST_WRITE as usize]?;
    let request = Request::Write {
        offset: 0,
        bytes: Bytes::from_vec(payload),
    };
    let mut meter = Meter::calm(alloc);
    let mut slots = empty_slots(alloc)?;
    for place in 1..=count {
        slots = admit(slots, &mut meter, &request, place)?;
    }
    Ok(())
}

/// The slots of the first queue.
fn empty_slots(alloc: Global) -> Result<FixedVec<Slot<MemRegion>, QUEUE_SLOTS>, AllocError> {
    let mut slots = FixedVec::new();
    for device in FIRST_SLOT..FIRST_SLOT + QUEUE_SLOTS as u32 {
        let words = vec![in alloc; 0; region_words(FIRST_SLOT)]?;
        let region = MemRegion::new(alloc, device, words)?;
        if slots.len() < QUEUE_SLOTS {
            slots.push(Slot::new(region));
        }
    }
    Ok(slots)
}

/// The request's way through its slots: staged, its gate opened and closed.
fn admit(
    slots: FixedVec<Slot<MemRegion>, QUEUE_SLOTS>,
    meter: &mut Meter,
    request: &Request,
    place: u64,
) -> anyhow::Result<FixedVec<Slot<MemRegion>, QUEUE_SLOTS>>
    requires { 0 < place }
{
    if !is_long(request) || slots.len() != slots_for(request) || !are_chain(&slots) {
        return Err(anyhow!("these slots do not hold the request"));
    }
    let Ok(staged) = stage_chain(slots, meter, 2, request, 1) else {
        return Err(anyhow!("a device fault"));
    };
    let Ok(live) = staged.open_gate(meter, place) else {
        return Err(anyhow!("a device fault"));
    };
    let Ok(slots) = live.close_gate(meter) else {
        return Err(anyhow!("a device fault"));
    };
    Ok(slots)
}
