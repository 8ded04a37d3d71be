//! Queues that begin.
ghost use Rattle.std.specs.Prelude.{◌≡◌, ◌<◌, [], IfOk};
ghost use Rattle.cfs_slot.specs.Regions.{of_slot};
ghost use Rattle.cfs_queue.specs.Queue.{out_slots};

use cfs_pmem::MemRegion;
use cfs_queue::Queue;
use cfs_slot::{FIRST_SLOT, Slot};
use cfs_vec::FixedVec;
use std::alloc::{AllocError, Global};

/// A free slot.
fn slot(alloc: Global, device: u32) -> Result<Slot<MemRegion>, AllocError>
    ensures { IfOk result (λ slot. (of_slot slot).seen.device ≡ device) }
{
    Ok(Slot::new(MemRegion::new(alloc, device, vec![in alloc; 0; 518]?)?))
}

/// The queue of a number, below 64, whose slots are all free.
pub fn queue(alloc: Global, number: u32) -> Result<Queue<MemRegion>, AllocError>
    requires { number < 64 }
    ensures number { IfOk result (λ queue. queue.number ≡ number) }
    ensures whole { IfOk result (λ queue. out_slots queue ≡ []) }
{
    let mut slots = FixedVec::new();
    for at in 0..16 {
        slots.push(slot(alloc, FIRST_SLOT + 16 * number + at)?);
    }
    Ok(Queue::new(number, slots))
}
