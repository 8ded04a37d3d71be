ghost use Rattle.std.specs.Prelude.{◌≡◌, ◌<◌, IfOk};
ghost use Rattle.cfs_slot.specs.Regions.{of_slot};

use cfs_pmem::MemRegion;
use cfs_queue::Queue;
use cfs_slot::{FIRST_SLOT, QUEUE_SLOTS, Slot};
use cfs_vec::FixedVec;
use std::alloc::{AllocError, Global};
use std::test::Fail;

/// A free slot in memory.
fn slot(alloc: Global, device: u32) -> Result<Slot<MemRegion>, AllocError>
    ensures { IfOk result (λ slot. (of_slot slot).seen.device ≡ device) }
{
    Ok(Slot::new(MemRegion::new(alloc, device, vec![in alloc; 0; 518]?)?))
}

/// A queue in memory, whose slots are all free.
fn queue(alloc: Global, number: u32) -> Result<Queue<MemRegion>, AllocError>
    requires { number < 64 }
{
    let mut slots = FixedVec::new();
    for at in 0..16 {
        slots.push(slot(alloc, FIRST_SLOT + 16 * number + at)?);
    }
    Ok(Queue::new(number, slots))
}

/// Notes the place of a slot that is out, if it is not known.
fn note(queue: &mut Queue<MemRegion>, slot: u32, place: u64) {
    if let Some(known) = queue.place(slot) {
        if known == 0 {
            queue.sent(slot, place);
        }
    }
}

/// Gives a slot back, if it is of this queue and is out.
fn give(queue: &mut Queue<MemRegion>, slot: Slot<MemRegion>) -> bool {
    let device = slot.device();
    if device < FIRST_SLOT || (device - FIRST_SLOT) / 16 != queue.number() {
        return false;
    }
    if queue.place((device - FIRST_SLOT) % 16).is_none() {
        return false;
    }
    queue.give_back(slot);
    true
}

/// The number of a slot in its queue.
fn number_of(slot: &Slot<MemRegion>) -> u32
    ensures { result < 16 }
{
    slot.device().saturating_sub(FIRST_SLOT) % 16
}

/// Sixteen slots are taken, and sent at places that fall: no other is there then, and the places
/// come ascending.
#[test]
fn full_of_its_places(rt: HostRuntime) -> Result<(), Fail> {
    let mut queue = queue(rt.alloc(), 3)?;
    let mut taken = Vec::new(rt.alloc());
    assert_eq!(rt; queue.number(), 3);
    for at in 0..16u32 {
        let slot = queue.take().ok().ok_or("no slot is free")?;
        assert_eq!(rt; slot.device(), 371 + at);
        note(&mut queue, at, u64::from(40 - at));
        taken.push(slot)?;
    }
    assert!(rt; queue.is_full());
    let full = queue.take().err().ok_or("a slot is free")?;
    let places = [
        25, 26, 27, 28, 29, 30, 31, 32, 33, 34, 35, 36, 37, 38, 39, 40,
    ];
    assert_eq!(rt; full.places, places);
    let slot = taken.pop().ok_or("nothing was taken")?;
    assert!(rt; give(&mut queue, slot));
    assert!(rt; !queue.is_full());
    let few = queue.take_many(2).err().ok_or("two slots are free")?;
    assert_eq!(rt; few.need, 2);
    assert_eq!(rt; few.places.as_slice(), &places[1..]);
    let slots = queue.take_many(1).ok().ok_or("no slot is free")?;
    assert_eq!(rt; slots.len(), 1);
    let slot = taken.pop().ok_or("one was taken")?;
    assert!(rt; give(&mut queue, slot));
    assert_eq!(rt; queue.into_parts().len(), 1);
    Ok(())
}

/// The next number of a plain generator of numbers.
fn draw(seed: &mut u64, below: u64) -> u64
    requires { 0 < below }
    ensures { result < below }
{
    *seed = seed
        .wrapping_mul(6_364_136_223_846_793_005)
        .wrapping_add(1_442_695_040_888_963_407);
    (*seed >> 33) % below
}

/// Whether a queue says of each number what the plain list says.
fn agrees(queue: &Queue<MemRegion>, plain: &[Option<u64>; QUEUE_SLOTS]) -> bool {
    let free = plain.iter().filter(|place| place.is_none()).count();
    let mut same = true;
    for (at, place) in plain.iter().enumerate() {
        same = same && queue.place(at as u32) == *place;
    }
    same && queue.is_full() == (free == 0) && queue.is_whole() == (free == QUEUE_SLOTS)
}

/// Two thousand drawn calls, beside a plain list of the places by number.
#[test]
fn as_a_plain_list(rt: HostRuntime) -> Result<(), Fail> {
    let mut queue = queue(rt.alloc(), 0)?;
    let mut taken = Vec::new(rt.alloc());
    let mut plain: [Option<u64>; QUEUE_SLOTS] = [None; QUEUE_SLOTS];
    let mut seed = 11;
    for step in 0..2000u64 {
        if draw(&mut seed, 2) == 0 {
            if let Ok(slot) = queue.take() {
                let number = number_of(&slot);
                let lowest = plain.iter().position(|place| place.is_none());
                assert_eq!(rt; lowest, Some(number as usize));
                let place = if step % 2 == 0 { 0 } else { step };
                note(&mut queue, number, place);
                plain[number as usize] = Some(place);
                taken.push(slot)?;
            }
        } else if taken.len() > 0 {
            let at = draw(&mut seed, taken.len() as u64) as usize;
            let slot = taken.swap_remove(at);
            plain[number_of(&slot) as usize] = None;
            assert!(rt; give(&mut queue, slot));
        }
        assert!(rt; agrees(&queue, &plain), "{step}");
    }
    Ok(())
}
