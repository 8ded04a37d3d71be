//! What stands at the numbers of a queue, one after another.
ghost use Rattle.std.specs.Prelude.{◌≡◌, ◌<◌, ◌≤◌, [], IfNone, IfSome, count_by, length, map, slice_get, slice_set};
ghost use Rattle.std.proofs.Math.ListN.{set};
ghost use Rattle.std.specs.List.{position};
ghost use Rattle.cfs_slot.specs.Regions.{of_slot, of_slots};
ghost use Rattle.cfs_queue.specs.Queue.{AreSorted, free, free_in, is_free, place_at as place_seen, places_in};
ghost use Rattle.cfs_queue.specs.Rows.{seen_all, seen_as};
ghost use Rattle.cfs_queue.specs.Taking.{TakesFirst, TakesMany};

use crate::kept::Kept;
use arrayvec::ArrayVec;
use cfs_pmem::Region;
use cfs_slot::{QUEUE_SLOTS, Slot};
use cfs_vec::FixedVec;
use std::mem;

/// How many slots are free.
pub(crate) fn count_free<R: Region>(rows: &[Kept<R>]) -> usize
    ensures { result ≡ count_by (λ row. is_free (seen_as row)) rows.now }
{
    rows.iter().filter(|row| row.is_free()).count()
}

/// The lowest number of a free slot.
fn first_free<R: Region>(rows: &[Kept<R>]) -> Option<usize>
    ensures { result ≡ position (λ row. is_free (seen_as row)) rows.now }
{
    rows.iter().position(|row| row.is_free())
}

/// Takes the free slot of the lowest number, which is out from then on; none exactly where no
/// slot is free.
pub(crate) fn take_first<R: Region + Drop>(
    rows: &mut ArrayVec<Kept<R>, QUEUE_SLOTS>,
) -> Option<Slot<R>>
    ensures first { IfSome result (λ slot.
        TakesFirst (seen_all rows.old.items) (of_slot slot) (seen_all rows.new.items)) }
    ensures none { IfNone result (free_in (seen_all rows.old.items) ≡ []) }
    ensures unchanged { IfNone result (rows.new ≡ rows.old) }
{
    let Some(at) = first_free(rows.as_slice()) else {
        return None;
    };
    match mem::replace(&mut rows.as_mut_slice()[at], Kept::Out(0)) {
        Kept::Free(slot) => Some(slot),
        Kept::Out(_) => unreachable!(),
    }
}

/// Puts this at a number, in place of what stands there.
fn put_in<R: Region + Drop>(rows: &mut [Kept<R>], at: usize, row: Kept<R>)
    requires { at < length rows.old }
    ensures { rows.new ≡ slice_set rows.old at row }
{
    rows[at] = row;
}

/// The same in a vector.
pub(crate) fn put<R: Region + Drop>(
    rows: &mut ArrayVec<Kept<R>, QUEUE_SLOTS>,
    at: usize,
    row: Kept<R>,
)
    requires { at < length rows.old.items }
    ensures { seen_all rows.new.items ≡ set (seen_all rows.old.items) at (seen_as row) }
{
    put_in(rows.as_mut_slice(), at, row);
}

/// All of these slots, which are free.
pub(crate) fn all_free<R: Region + Drop>(
    mut slots: FixedVec<Slot<R>, QUEUE_SLOTS>,
) -> ArrayVec<Kept<R>, QUEUE_SLOTS>
    ensures { seen_all result.items ≡ map (λ slot. free slot) (of_slots slots) }
{
    let mut rows = ArrayVec::new();
    slots.reverse();
    while let Some(slot) = slots.pop() {
        rows.push(Kept::Free(slot));
    }
    rows
}

/// Takes so many free slots, of the lowest numbers, ascending, or all where fewer are free.
pub(crate) fn take_lowest<R: Region + Drop>(
    rows: &mut ArrayVec<Kept<R>, QUEUE_SLOTS>,
    count: usize,
) -> FixedVec<Slot<R>, QUEUE_SLOTS>
    requires { count ≤ 16 }
    ensures taken { TakesMany
        (seen_all rows.old.items) (of_slots result) (seen_all rows.new.items) }
    ensures most { length (of_slots result) ≤ count }
    ensures all { length (of_slots result) < count → free_in (seen_all rows.new.items) ≡ [] }
{
    let mut slots = FixedVec::new();
    for _ in 0..count {
        let Some(slot) = take_first(rows) else {
            return slots;
        };
        slots.push(slot);
    }
    slots
}

/// The place of the slot that is out at a number; none exactly where a free one is there,
/// or no number.
pub(crate) fn place_at<R: Region>(rows: &[Kept<R>], at: usize) -> Option<u64>
    ensures { result ≡ place_seen (slice_get (seen_all rows.now) at) }
{
    let Some(row) = rows.get(at) else {
        return None;
    };
    row.place()
}

/// The places of the slots that are out, ascending.
pub(crate) fn sorted_places<R: Region>(rows: &[Kept<R>]) -> ArrayVec<u64, QUEUE_SLOTS>
    requires { length rows.now ≤ 16 }
    ensures { AreSorted (places_in (seen_all rows.now)) result.items }
{
    let mut places = ArrayVec::new();
    for row in rows {
        row.tell(&mut places);
    }
    places.as_mut_slice().sort_unstable();
    places
}

/// The same where no slot is free.
pub(crate) fn all_places<R: Region>(rows: &[Kept<R>]) -> [u64; QUEUE_SLOTS]
    requires sixteen { length rows.now ≡ 16 }
    requires full { free_in (seen_all rows.now) ≡ [] }
    ensures { AreSorted (places_in (seen_all rows.now)) result }
{
    let mut places = [0; QUEUE_SLOTS];
    places.copy_from_slice(sorted_places(rows).as_slice());
    places
}
