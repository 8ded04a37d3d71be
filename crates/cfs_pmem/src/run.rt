//! The places that were written since the last persist, where each call writes one.
ghost use Rattle.std.specs.Prelude.{◌≡◌, ◌+◌, ◌^◌, ◌<◌, ◌≤◌};

use crate::dirty::Dirty;

/// The least range that holds every place that was added: a run of neighbours that ends with the
/// newest one, and the range of what came before. While places come in order only the end of the
/// run changes, so that a compiler needs no test of a place in a loop.
#[derive(Clone, Copy, Debug)]
pub struct Run {
    pub before: Dirty,
    pub from: u32,
    pub to: u32,
}

impl Run {
    ghost use Rattle.cfs_pmem.specs.Range.{with_range, range_of};

    /// No place of `len`.
    pub fn none(len: u32) -> Run
        ensures range { range_of result ≡ record { from = len; to = 0 } }
        ensures ordered { result.from ≤ result.to }
    {
        Run {
            before: Dirty::none(len),
            from: 0,
            to: 0,
        }
    }

    /// The range.
    #[inline]
    pub fn range(self) -> Dirty
        ensures { result ≡ range_of self }
    {
        let mut range = self.before;
        if self.from < self.to {
            range.add(self.from, self.to);
        }
        range
    }

    /// Adds a place.
    #[inline]
    pub fn add(&mut self, at: u32)
        requires fits { at + 1 < 2 ^ 32 }
        requires ordered { self.old.from ≤ self.old.to }
        ensures range { range_of self.new ≡ with_range at (at + 1) (range_of self.old) }
        ensures ordered { self.new.from ≤ self.new.to }
    {
        if at != self.to {
            self.before = self.range();
            self.from = at;
        }
        self.to = at + 1;
    }
}
