//! A list.

ghost use Rattle.std.specs.Prelude.{◌≡◌, [], ◌∷◌, ◌++◌, ◌<◌, length, slice_set, IfOk, OnOk, OnErr};

use cfs_file::NoMemory;
use std::alloc::Global;
use std::marker::Model;

/// A vector that contracts see as the list of its elements.
#[derive(Drop)]
pub struct Items<T> {
    vec: Vec<T>,
}

impl<T> Model for Items<T> {
    ghost use Rattle.std.specs.Prelude.{List};
    ghost use Rattle.std.specs.Coded.{coded_list};

    ghost Value = { List T };

    ghost coded = { coded_list T.code };

    ghost view = { λ it. it.vec.items };
}

impl<T> Items<T> {
    /// No elements. Takes no memory.
    pub fn new(alloc: Global) -> Items<T>
        ensures { result ≡ [] }
    {
        Items {
            vec: Vec::new(alloc),
        }
    }

    /// The elements of `vec`. Takes no memory.
    pub fn from_vec(vec: Vec<T>) -> Items<T>
        ensures { result ≡ vec.items }
    {
        Items { vec }
    }

    /// The elements.
    pub fn as_slice(&self) -> &[T]
        ensures { result.now ≡ self.now }
    {
        self.vec.as_slice()
    }

    /// How many elements there are.
    pub fn len(&self) -> usize
        ensures { result ≡ length self.now }
    {
        self.vec.len()
    }
}

impl<T: Copy> Items<T> {
    /// A copy of `items`.
    pub fn from_slice(alloc: Global, items: &[T]) -> Result<Items<T>, NoMemory>
        ensures { IfOk result (λ copy. copy ≡ items.now) }
    {
        let vec = Vec::from_slice(alloc, items)?;
        Ok(Items { vec })
    }
}

impl<T: Drop> Items<T> {
    /// Puts `item` in place of the element `at`, counted from 0. Takes no memory.
    pub fn set(&mut self, at: usize, item: T)
        requires { at < length self.old }
        ensures { self.new ≡ slice_set self.old at item }
    {
        self.vec[at] = item;
    }

    /// Puts `item` behind the others. An `Err` leaves the list as it was.
    pub fn push(&mut self, item: T) -> Result<(), NoMemory>
        ensures ok { OnOk result (self.new ≡ self.old ++ item ∷ []) }
        ensures err { OnErr result (self.new ≡ self.old) }
    {
        self.vec.push(item)?;
        Ok(())
    }
}
