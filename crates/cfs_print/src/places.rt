//! The places of a full queue.

ghost use Rattle.std.specs.Prelude.{◌≡◌};

use arrayvec::ArrayVec;
use cfs_file::QUEUE_SLOTS;
use std::marker::Model;

/// The places that hold a queue's slots, one a slot, 0 for one in doubt. Contracts see the list.
#[derive(Debug, Drop)]
pub struct Places {
    places: ArrayVec<u64, QUEUE_SLOTS>,
}

impl Model for Places {
    ghost use Rattle.std.specs.Prelude.{List, ℕ};

    ghost Value = { List ℕ };

    ghost view = { λ p. p.places.items };
}

impl Places {
    /// These places. Takes no memory.
    pub fn new(places: ArrayVec<u64, QUEUE_SLOTS>) -> Places
        ensures { result ≡ places.items }
    {
        Places { places }
    }

    /// The places, in order.
    pub fn as_slice(&self) -> &[u64]
        ensures { result.now ≡ self.now }
    {
        self.places.as_slice()
    }
}
