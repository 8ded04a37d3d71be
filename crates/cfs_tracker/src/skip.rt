//! No-ops are closed.

ghost use Rattle.std.specs.Prelude.{◌≡◌, true, IfNone, OnSome, is_some};
ghost use Rattle.cfs_core.specs.declared.event.Event.TheVariants as events;
ghost use Rattle.cfs_core.specs.declared.inode_core.Core.{Core};
ghost use Rattle.cfs_core.specs.May.{may};
ghost use Rattle.cfs_core.specs.After.{after};
ghost use Rattle.cfs_tracker.specs.Follows.{Follows};
ghost use Rattle.cfs_tracker.specs.Skip.{closing, covered_slots, is_closing, skipped, unclosed};
ghost use Rattle.cfs_tracker.specs.View.{KeepsRoom, entry_at, view_of};

use crate::find::{drop_entry, entry_of, redo};
use crate::{Doing, Tracker};

impl<S: Drop, D: Drop, B: Drop> Tracker<S, D, B> {
    /// Takes the slots of the no-op at a place out, to be closed; none exactly where no no-op with
    /// its slots has the place. `skipped` or `put_covered` comes next. Walks the entries to the
    /// place twice.
    pub fn take_covered(&mut self, place: u64) -> Option<S>
        ensures slots { result ≡ covered_slots (entry_at (view_of self.old).entries place) }
        ensures taken { OnSome result (view_of self.new ≡ closing place (view_of self.old)) }
        ensures unchanged { IfNone result (view_of self.new ≡ view_of self.old) }
        ensures room { KeepsRoom self.old self.new }
        ensures follows { (core : Core) → Follows (view_of self.old) core →
            Follows (view_of self.new) core }
    {
        if !self.is_covered(place) {
            return None;
        }
        match redo(&mut self.entries, place, Doing::Closing) {
            Some(Doing::Covered(slots)) => Some(slots),
            Some(Doing::Waiting(_) | Doing::Marking | Doing::Out { .. } | Doing::Closing) | None =>
                { unreachable!() }
        }
    }

    fn is_covered(&self, place: u64) -> bool
        ensures { result ≡ is_some (covered_slots (entry_at (view_of self.now).entries place)) }
    {
        match entry_of(self.entries.as_slice(), place) {
            Some(entry) => matches!(entry.doing, Doing::Covered(_)),
            None => false,
        }
    }

    /// The slots that `take_covered` gave could not be closed, and come back. Walks the entries to
    /// the place.
    pub fn put_covered(&mut self, place: u64, slots: S)
        requires { is_closing (entry_at (view_of self.old).entries place) ≡ true }
        ensures view { view_of self.new ≡ unclosed place slots (view_of self.old) }
        ensures room { KeepsRoom self.old self.new }
        ensures follows { (core : Core) → Follows (view_of self.old) core →
            Follows (view_of self.new) core }
    {
        redo(&mut self.entries, place, Doing::Covered(slots));
    }

    /// The slots that `take_covered` gave were closed. Walks the entries once.
    pub fn skipped(&mut self, place: u64)
        requires { is_closing (entry_at (view_of self.old).entries place) ≡ true }
        ensures view { view_of self.new ≡ skipped place (view_of self.old) }
        ensures room { KeepsRoom self.old self.new }
        ensures follows { (core : Core) → Follows (view_of self.old) core →
            (may core (events.Skip place) ≡ true)
            × Follows (view_of self.new) (after core (events.Skip place)) }
    {
        drop_entry(&mut self.entries, place);
    }
}
