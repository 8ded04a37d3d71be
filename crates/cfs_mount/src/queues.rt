//! The queues of a store.
ghost use Rattle.std.specs.Prelude.{◌≡◌, ◌≤◌, ◌*◌, ◌∷◌, ◌<◌, IfOk, drop, length, map, take};
ghost use Rattle.std.specs.Vec.Iter.{into_iter_items};
ghost use Rattle.cfs_mount.specs.Queues.{AreFreeSlots, free_queues};
ghost use Rattle.cfs_queue.specs.Queue.{first_of, free};

use cfs_file::NoMemory;
use cfs_pmem::MemRegion;
use cfs_queue::Queue;
use cfs_slot::{QUEUE_SLOTS, Slot};
use cfs_vec::FixedVec;
use std::alloc::Global;
use std::vec::IntoIter;

/// The next of these regions, of which there must be one.
fn next_region(slots: &mut IntoIter<MemRegion>) -> MemRegion
    requires { 0 < length (into_iter_items slots.old) }
    ensures { into_iter_items slots.old ≡ result ∷ into_iter_items slots.new }
{
    let Some(region) = slots.next() else {
        unreachable!()
    };
    region
}

/// The queue of a number, which has the next 16 of these slots.
fn next_queue(slots: &mut IntoIter<MemRegion>, number: u32) -> Queue<MemRegion>
    requires enough { 16 ≤ length (into_iter_items slots.old) }
    requires free { AreFreeSlots (first_of number)
        (map (λ region. region.seen) (into_iter_items slots.old)) }
    ensures queue { result ≡ record {
      number = number;
      held = map (λ slot. free slot) (take 16 (into_iter_items slots.old));
    } }
    ensures left { into_iter_items slots.new ≡ drop 16 (into_iter_items slots.old) }
{
    let mut queue = FixedVec::new();
    for _ in 0..QUEUE_SLOTS {
        queue.push(Slot::new(next_region(slots)));
    }
    Queue::new(number, queue)
}

/// The queues of a store, by number. Its slots are these, 16 for each of so many queues, by device
/// number from 323 on, and no gate is open. No device is asked for a step.
pub(crate) fn queues_of(
    alloc: Global,
    slots: Vec<MemRegion>,
    count: u32,
) -> Result<Vec<Queue<MemRegion>>, NoMemory>
    requires count { length slots.items ≡ 16 * count }
    requires free { AreFreeSlots 323 (map (λ region. region.seen) slots.items) }
    ensures { IfOk result (λ queues. queues.items ≡ free_queues slots.items count) }
{
    let mut left = slots.into_iter();
    let mut queues = Vec::with_capacity(alloc, count as usize)?;
    for number in 0..count {
        queues.push(next_queue(&mut left, number))?;
    }
    Ok(queues)
}
