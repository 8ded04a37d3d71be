ghost use Rattle.std.specs.Prelude.{◌≡◌, ◌↔◌, ◌<◌, ◌≤◌, ◌∷◌, [], IfErr, IfOk, IsErr, OnErr, Some, length, vec_len};
ghost use Rattle.std.specs.BinaryHeap.{IsHeap, heap_capacity, heap_items, heap_len};
ghost use Rattle.std.specs.List.Sorted.{IsPermutation};
ghost use Rattle.std.specs.Ordering.{flip_args, nat_cmp, on};
ghost use Rattle.cfs_pool.specs.Pool.{TakesLowest, items_of, taken_of};

use crate::numbered::Numbered;
use crate::ranked::Ranked;
use arrayvec::ArrayVec;
use std::alloc::{AllocFailed, Global};
use std::collections::BinaryHeap;
use std::marker::Model;

/// How many items one `take` gives at most.
pub const FEW: usize = 2;

/// How many items one `take_many` gives at most.
pub const MANY: usize = 17;

/// Fewer items are free than are asked for.
#[derive(Clone, Copy, Debug, PartialEq, Eq)]
pub struct Short {
    /// How many are asked for.
    pub need: u32,
    /// How many are free.
    pub free: u32,
}

/// Numbered items that are free, kept in a heap.
///
/// To take or give one item takes a number of steps that is logarithmic in the number of items, and
/// no memory: the room is taken when the pool is made.
#[derive(Drop)]
pub struct Pool<T: Numbered> {
    heap: BinaryHeap<Ranked<T>>,
    /// How many items it has room for.
    room: u32,
}

impl<T: Numbered> Model for Pool<T> {
    ghost use Rattle.std.specs.Prelude.{◌<◌, ◌≤◌, ◌^◌, length};
    ghost use Rattle.std.specs.BinaryHeap.{IsHeap, heap_capacity, heap_items, heap_len};
    ghost use Rattle.std.specs.Ordering.{flip_args, nat_cmp, on};
    ghost use Rattle.cfs_pool.specs.Pool.{Stock, items_of, stock_code};

    ghost Value = { Stock T };

    ghost coded = { stock_code T.code };

    ghost view = { λ p. record { free = items_of (heap_items p.heap); room = p.room } };

    ghost invariant = { λ p. (length (heap_items p.heap) ≤ p.room) × (p.room < 2 ^ 32)
        × (p.room ≤ heap_capacity p.heap)
        × IsHeap (flip_args (on (λ r. T.number r.item) nat_cmp)) (heap_items p.heap) };
}

/// Puts items into a heap that is empty and has room for them.
fn fill<T: Numbered + Drop>(heap: &mut BinaryHeap<Ranked<T>>, mut items: Vec<T>)
    requires heap { IsHeap (flip_args (on (λ r. T.number r.item) nat_cmp)) (heap_items heap.old) }
    requires empty { heap_items heap.old ≡ [] }
    requires room { vec_len items ≤ heap_capacity heap.old }
    ensures heap { IsHeap (flip_args (on (λ r. T.number r.item) nat_cmp)) (heap_items heap.new) }
    ensures filled { IsPermutation items.items (items_of (heap_items heap.new)) }
    ensures count { length (heap_items heap.new) ≡ vec_len items }
    ensures room { heap_capacity heap.old ≤ heap_capacity heap.new }
{
    while let Some(item) = items.pop() {
        match heap.push(Ranked { item }) {
            Ok(()) => {}
            Err(_) => unreachable!(),
        }
    }
}

/// Takes the items of the lowest numbers out of a heap, ascending.
fn pop_lowest<T: Numbered + Drop, const N: usize>(
    heap: &mut BinaryHeap<Ranked<T>>,
    k: u32,
) -> ArrayVec<Option<T>, N>
    requires heap { IsHeap (flip_args (on (λ r. T.number r.item) nat_cmp)) (heap_items heap.old) }
    requires there { k ≤ length (heap_items heap.old) }
    requires room { k ≤ N }
    ensures heap { IsHeap (flip_args (on (λ r. T.number r.item) nat_cmp)) (heap_items heap.new) }
    ensures left { length (heap_items heap.new) ≤ length (heap_items heap.old) }
    ensures count { length (taken_of result.items) ≡ k }
    ensures lowest { TakesLowest T.number (items_of (heap_items heap.old)) (taken_of result.items)
        (items_of (heap_items heap.new)) }
    ensures room { heap_capacity heap.new ≡ heap_capacity heap.old }
{
    let mut taken = ArrayVec::new();
    for _ in 0..k {
        let Some(ranked) = heap.pop() else {
            unreachable!();
        };
        let Ranked { item } = ranked;
        taken.push(Some(item));
    }
    taken
}

impl<T: Numbered + Drop> Pool<T> {
    /// The pool of these items, with room for `room`. Without memory it gives the items back.
    pub fn new(alloc: Global, items: Vec<T>, room: u32) -> Result<Self, AllocFailed<Vec<T>>>
        requires { vec_len items ≤ room }
        ensures free { IfOk result (λ pool. IsPermutation items.items pool.free) }
        ensures room { IfOk result (λ pool. pool.room ≡ room) }
        ensures given_back { IfErr result (λ failed. failed.value ≡ items) }
    {
        match BinaryHeap::with_capacity(alloc, room as usize) {
            Ok(mut heap) => {
                fill(&mut heap, items);
                Ok(Pool { heap, room })
            }
            Err(_) => Err(AllocFailed { value: items }),
        }
    }

    /// Takes the `k` items of the lowest numbers, ascending, into room for `N`.
    fn lowest<const N: usize>(&mut self, k: u32) -> Result<ArrayVec<Option<T>, N>, Short>
        requires { k ≤ N }
        ensures short { IsErr result ↔ (length self.old.free < k) }
        ensures counts { IfErr result (λ short.
            short ≡ record { need = k; free = length self.old.free }) }
        ensures unchanged { OnErr result (self.new ≡ self.old) }
        ensures count { IfOk result (λ taken. length (taken_of taken.items) ≡ k) }
        ensures lowest { IfOk result (λ taken.
            TakesLowest T.number self.old.free (taken_of taken.items) self.new.free) }
        ensures room { self.new.room ≡ self.old.room }
    {
        if self.free() < k {
            return Err(Short {
                need: k,
                free: self.free(),
            });
        }
        Ok(pop_lowest(&mut self.heap, k))
    }

    /// Takes the `k` items of the lowest numbers, ascending; each place of the answer has one.
    /// Short exactly where fewer are free, and then nothing changes.
    pub fn take(&mut self, k: u32) -> Result<ArrayVec<Option<T>, FEW>, Short>
        requires { k ≤ 2 }
        ensures short { IsErr result ↔ (length self.old.free < k) }
        ensures counts { IfErr result (λ short.
            short ≡ record { need = k; free = length self.old.free }) }
        ensures unchanged { OnErr result (self.new ≡ self.old) }
        ensures count { IfOk result (λ taken. length (taken_of taken.items) ≡ k) }
        ensures lowest { IfOk result (λ taken.
            TakesLowest T.number self.old.free (taken_of taken.items) self.new.free) }
        ensures room { self.new.room ≡ self.old.room }
    {
        self.lowest(k)
    }

    /// The same for up to 17 items.
    pub fn take_many(&mut self, k: u32) -> Result<ArrayVec<Option<T>, MANY>, Short>
        requires { k ≤ 17 }
        ensures short { IsErr result ↔ (length self.old.free < k) }
        ensures counts { IfErr result (λ short.
            short ≡ record { need = k; free = length self.old.free }) }
        ensures unchanged { OnErr result (self.new ≡ self.old) }
        ensures count { IfOk result (λ taken. length (taken_of taken.items) ≡ k) }
        ensures lowest { IfOk result (λ taken.
            TakesLowest T.number self.old.free (taken_of taken.items) self.new.free) }
        ensures room { self.new.room ≡ self.old.room }
    {
        self.lowest(k)
    }
}

impl<T: Numbered> Pool<T> {
    /// How many items are free.
    pub fn free(&self) -> u32
        ensures { result ≡ length self.now.free }
    {
        self.heap.len() as u32
    }

    /// How many items it has room for.
    pub fn room(&self) -> u32
        ensures { result ≡ self.now.room }
    {
        self.room
    }

    /// Gives an item to the pool.
    pub fn give(&mut self, item: T)
        requires { length self.old.free < self.old.room }
        ensures given { IsPermutation (item ∷ self.old.free) self.new.free }
        ensures room { self.new.room ≡ self.old.room }
    {
        match self.heap.push(Ranked { item }) {
            Ok(()) => {}
            Err(_) => unreachable!(),
        }
    }

    /// The items, in any order. It takes no memory.
    pub fn into_parts(self) -> Vec<Ranked<T>>
        ensures { items_of result.items ≡ self.free }
    {
        let Pool { heap, room: _ } = self;
        heap.into_vec()
    }
}
