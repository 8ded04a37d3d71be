//! A queue and its calls.
ghost use Rattle.std.specs.Prelude.{◌≡◌, ◌↔◌, ◌<◌, ◌≤◌, ◌++◌, ◌∷◌, [], IfErr, IfOk, IsErr, IsSome, IsTrue, OnErr, Some, length, map, slice_get};
ghost use Rattle.cfs_slot.specs.Regions.{devices_in, of_slot, of_slots, slot_numbers};
ghost use Rattle.cfs_slot.specs.Tails.{number_of};
ghost use Rattle.cfs_queue.specs.Queue.{AreRising, AreSorted, IsChain, IsOf, IsQueue, all_out, devices_of, first_of, free, free_slots, out, out_slots, place_at, places_in, with_held};

use crate::kept::Kept;
use crate::refusal::{Few, Full};
use crate::rows;
use crate::rows::{all_free, all_places, count_free, put, sorted_places, take_first, take_lowest};
use arrayvec::ArrayVec;
use cfs_pmem::Region;
use cfs_slot::{FIRST_SLOT, QUEUE_SLOTS, Slot};
use cfs_vec::FixedVec;
use std::marker::Model;

/// The 16 slots of a queue. Those that are taken are out, until they are given back.
#[derive(Drop)]
pub struct Queue<R: Region> {
    number: u32,
    /// What stands at 0, 1 and so on.
    rows: ArrayVec<Kept<R>, QUEUE_SLOTS>,
}

impl<R: Region> Model for Queue<R> {
    ghost use Rattle.cfs_queue.specs.Queue.{IsQueue, Slots, slots_code};

    ghost Value = { Slots R };

    ghost coded = { slots_code R.code };

    ghost use Rattle.cfs_queue.specs.Rows.{seen_all};

    ghost view = { λ q. record { number = q.number; held = seen_all q.rows.items } };

    ghost invariant = { λ q. IsQueue R.seen q.number (seen_all q.rows.items) };
}

impl<R: Region + Drop> Queue<R> {
    /// The queue of this number with its 16 slots, ascending, all of them free.
    pub fn new(number: u32, slots: FixedVec<Slot<R>, QUEUE_SLOTS>) -> Queue<R>
        requires { devices_in R.seen (of_slots slots) ≡ devices_of number }
        ensures { result ≡
            record { number = number; held = map (λ slot. free slot) (of_slots slots) } }
    {
        Queue {
            number,
            rows: all_free(slots),
        }
    }

    /// The number of the queue. Each of its 16 numbers has its own free slot, or that slot is out.
    pub fn number(&self) -> u32
        ensures value { result ≡ self.now.number }
        ensures each { IsQueue R.seen self.now.number self.now.held }
    {
        self.number
    }

    /// Whether no slot is free.
    pub fn is_full(&self) -> bool
        ensures { IsTrue result ↔ (free_slots self.now ≡ []) }
    {
        count_free(self.rows.as_slice()) == 0
    }

    /// Whether all slots are free.
    pub fn is_whole(&self) -> bool
        ensures { IsTrue result ↔ (out_slots self.now ≡ []) }
    {
        count_free(self.rows.as_slice()) == QUEUE_SLOTS
    }

    /// The place of the slot of a number that is out, and 0 where that is not known; none exactly
    /// where the slot is free, or no slot has that number.
    pub fn place(&self, slot: u32) -> Option<u64>
        ensures { result ≡ place_at (slice_get self.now.held slot) }
    {
        rows::place_at(self.rows.as_slice(), slot as usize)
    }

    /// Takes the free slot of the lowest number, which is out from then on, at place 0. Full
    /// exactly where no slot is free, and then nothing changes.
    pub fn take(&mut self) -> Result<Slot<R>, Full>
        ensures full { IsErr result ↔ (free_slots self.old ≡ []) }
        ensures places { IfErr result (λ full. AreSorted (places_in self.old.held) full.places) }
        ensures unchanged { OnErr result (self.new ≡ self.old) }
        ensures lowest { IfOk result (λ slot.
            free_slots self.old ≡ of_slot slot ∷ free_slots self.new) }
        ensures own { IfOk result (λ slot. IsOf self.old.number (R.seen (of_slot slot)).device) }
        ensures taken { IfOk result (λ slot. self.new ≡
            with_held (number_of (R.seen (of_slot slot)).device) (out 0) self.old) }
    {
        let Some(slot) = take_first(&mut self.rows) else {
            return Err(Full {
                places: all_places(self.rows.as_slice()),
            });
        };
        Ok(slot)
    }

    /// Takes the `m` free slots of the lowest numbers, ascending, 1 to 16, which are out from then
    /// on, at place 0. Few exactly where fewer are free, and then nothing changes.
    pub fn take_many(&mut self, m: u32) -> Result<FixedVec<Slot<R>, QUEUE_SLOTS>, Few>
        requires some { 1 ≤ m }
        requires most { m ≤ 16 }
        ensures few { IsErr result ↔ (length (free_slots self.old) < m) }
        ensures need { IfErr result (λ few. few.need ≡ m) }
        ensures places { IfErr result (λ few.
            AreSorted (places_in self.old.held) few.places.items) }
        ensures unchanged { OnErr result (self.new ≡ self.old) }
        ensures count { IfOk result (λ slots. length (of_slots slots) ≡ m) }
        ensures lowest { IfOk result (λ slots.
            free_slots self.old ≡ of_slots slots ++ free_slots self.new) }
        // They are a chain of this queue's slots, as a long write takes it.
        ensures own { IfOk result (λ slots.
            AreRising self.old.number (first_of self.old.number)
            (devices_in R.seen (of_slots slots))) }
        ensures chain { IfOk result (λ slots. IsChain (devices_in R.seen (of_slots slots))) }
        ensures taken { IfOk result (λ slots. self.new ≡ record self.old {
          held = all_out (slot_numbers R.seen (of_slots slots)) self.old.held;
        }) }
    {
        if count_free(self.rows.as_slice()) < m as usize {
            return Err(Few {
                need: m,
                places: sorted_places(self.rows.as_slice()),
            });
        }
        Ok(take_lowest(&mut self.rows, m as usize))
    }

    /// Notes the place of a slot that is out, by the slot's number in the queue.
    pub fn sent(&mut self, slot: u32, place: u64)
        requires { slice_get self.old.held slot ≡ Some (out 0) }
        ensures { self.new ≡ with_held slot (out place) self.old }
    {
        put(&mut self.rows, slot as usize, Kept::Out(place));
    }

    /// Takes a slot of this queue back, which is out.
    pub fn give_back(&mut self, slot: Slot<R>)
        requires own { IsOf self.old.number (R.seen (of_slot slot)).device }
        requires out { IsSome
            (place_at (slice_get self.old.held (number_of (R.seen (of_slot slot)).device))) }
        ensures { self.new ≡ with_held (number_of (R.seen (of_slot slot)).device)
            (free (of_slot slot)) self.old }
    {
        let number = (slot.device() - FIRST_SLOT) % 16;
        put(&mut self.rows, number as usize, Kept::Free(slot));
    }

    /// Gives the free slots back, ascending.
    pub fn into_parts(self) -> FixedVec<Slot<R>, QUEUE_SLOTS>
        ensures { of_slots result ≡ free_slots self }
    {
        let Queue { mut rows, .. } = self;
        take_lowest(&mut rows, QUEUE_SLOTS)
    }
}
