//! A tracker is taken apart.

ghost use Rattle.std.specs.Prelude.{◌≡◌};
ghost use Rattle.cfs_tracker.specs.View.{view_of};

use crate::{Cell, InDoubt, Pending, Tracker};

/// What a tracker holds of the medium: the slots of what is pending and in doubt, and of each block
/// of the file, by its number, what stands for it.
#[derive(Debug, Drop)]
pub struct Parts<S, D, B> {
    pub entries: Vec<Pending<S>>,
    pub doubt: Option<InDoubt<D>>,
    pub cells: Vec<Cell<B>>,
}

impl<S: Drop, D: Drop, B: Drop> Tracker<S, D, B> {
    /// Gives all that it holds.
    pub fn into_parts(self) -> Parts<S, D, B>
        ensures entries { result.entries.items ≡ (view_of self).entries }
        ensures doubt { result.doubt ≡ (view_of self).doubt }
        ensures cells { result.cells.items ≡ (view_of self).cells }
    {
        let Tracker {
            entries,
            doubt,
            cells,
            ..
        } = self;
        Parts {
            entries,
            doubt,
            cells,
        }
    }
}
