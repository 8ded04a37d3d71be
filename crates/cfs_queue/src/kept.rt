//! What stands at a number of a queue.
ghost use Rattle.std.specs.Prelude.{◌≡◌, ◌++◌};

use arrayvec::ArrayVec;
use cfs_pmem::Region;
use cfs_slot::{QUEUE_SLOTS, Slot};

/// What stands at a number of a queue.
#[derive(Drop)]
pub(crate) enum Kept<R: Region> {
    /// A free slot.
    Free(Slot<R>),
    /// The place of a slot that is out, and 0 where that is not known.
    Out(u64),
}

impl<R: Region> Default for Kept<R> {
    fn default() -> Self {
        Kept::Out(0)
    }
}

impl<R: Region> Kept<R> {
    ghost use Rattle.std.specs.Prelude.{◌<◌, length, [], ◌∷◌};
    ghost use Rattle.cfs_queue.specs.Queue.{is_free, place_at, places_in};
    ghost use Rattle.cfs_queue.specs.Rows.{seen_as};

    /// Whether it is a free slot.
    pub(crate) fn is_free(&self) -> bool
        ensures { result ≡ is_free (seen_as self.now) }
    {
        match self {
            Kept::Free(_) => true,
            Kept::Out(_) => false,
        }
    }

    /// The place of a slot that is out, and none of a free one.
    pub(crate) fn place(&self) -> Option<u64>
        ensures { result ≡ place_at (Some (seen_as self.now)) }
    {
        match self {
            Kept::Free(_) => None,
            Kept::Out(place) => Some(*place),
        }
    }

    /// Puts the place of a slot that is out behind other places.
    pub(crate) fn tell(&self, places: &mut ArrayVec<u64, QUEUE_SLOTS>)
        requires { length places.old.items < 16 }
        ensures { places.new.items ≡ places.old.items ++ places_in (seen_as self.now ∷ []) }
    {
        match self {
            Kept::Free(_) => {}
            Kept::Out(place) => places.push(*place),
        }
    }
}
