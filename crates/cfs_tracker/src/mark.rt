//! Waiting changes that a later one covers become no-ops.

ghost use Rattle.std.specs.Prelude.{◌≡◌, true, IfNone, OnSome, is_some, option_copied};
ghost use Rattle.cfs_core.specs.declared.event.Event.TheVariants as events;
ghost use Rattle.cfs_core.specs.declared.inode_core.Core.{Core};
ghost use Rattle.cfs_core.specs.May.{may};
ghost use Rattle.cfs_core.specs.After.{after};
ghost use Rattle.cfs_tracker.specs.Dispatch.{waiting_slots};
ghost use Rattle.cfs_tracker.specs.Follows.{Follows};
ghost use Rattle.cfs_tracker.specs.Mark.{is_marking_by, marked, marked_doing, marking, next_mark, next_mark_by};
ghost use Rattle.cfs_tracker.specs.View.{KeepsRoom, entry_at, view_of};

use crate::blockers::place_of;
use crate::covers::{first_to_mark, may_mark_both};
use crate::find::{entry_of, redo};
use crate::{Doing, Pending, Tracker};

fn marked_doing<S>(slots: S, kept: bool) -> Doing<S>
    ensures { result ≡ marked_doing slots kept }
{
    if kept {
        Doing::Covered(slots)
    } else {
        Doing::Waiting(slots)
    }
}

impl<S: Drop, D: Drop, B: Drop> Tracker<S, D, B> {
    /// The first waiting entry behind the place `after` that the live entry at `by` covers, and
    /// that no read between the two overlaps. Walks the entries twice, and the reads for each
    /// waiting one that is covered.
    pub fn next_mark(&self, by: u64, after: u64) -> Option<u64>
        ensures { result ≡ next_mark (view_of self.now) by after }
    {
        self.next_mark_by(entry_of(self.entries.as_slice(), by), after)
    }

    fn next_mark_by(&self, later: Option<&Pending<S>>, after: u64) -> Option<u64>
        ensures { result ≡ next_mark_by (view_of self.now) (option_copied later.entry) after }
    {
        match later {
            Some(later) => place_of(first_to_mark(
                self.entries.as_slice(),
                self.reads.as_slice(),
                later,
                after,
            )),
            None => None,
        }
    }

    /// Takes the slots of the change that waits at a place out, to be marked; none exactly where no
    /// change waits there with its slots. `marked` comes next. Walks the entries to the place
    /// twice.
    pub fn take_waiting(&mut self, place: u64) -> Option<S>
        ensures slots { result ≡ waiting_slots (entry_at (view_of self.old).entries place) }
        ensures taken { OnSome result (view_of self.new ≡ marking place (view_of self.old)) }
        ensures unchanged { IfNone result (view_of self.new ≡ view_of self.old) }
        ensures room { KeepsRoom self.old self.new }
        ensures follows { (core : Core) → Follows (view_of self.old) core →
            Follows (view_of self.new) core }
    {
        if !self.is_waiting(place) {
            return None;
        }
        match redo(&mut self.entries, place, Doing::Marking) {
            Some(Doing::Waiting(slots)) => Some(slots),
            Some(Doing::Marking | Doing::Out { .. } | Doing::Covered(_) | Doing::Closing) | None =>
                { unreachable!() }
        }
    }

    fn is_waiting(&self, place: u64) -> bool
        ensures { result ≡ is_some (waiting_slots (entry_at (view_of self.now).entries place)) }
    {
        match entry_of(self.entries.as_slice(), place) {
            Some(entry) => entry.doing.is_waiting(),
            None => false,
        }
    }

    /// Whether the slots of the change at a place are out to be marked, and the live entry at `by`
    /// covers it, with no read between that overlaps it. Walks the entries to both, and the reads.
    pub fn is_marking_by(&self, place: u64, by: u64) -> bool
        ensures { result ≡ is_marking_by (view_of self.now) place by }
    {
        let entries = self.entries.as_slice();
        may_mark_both(
            self.reads.as_slice(),
            entry_of(entries, by),
            entry_of(entries, place),
        )
    }

    /// The slots that `take_waiting` gave come back: the change at the place is a no-op, covered by
    /// the later one at `by`, or, where that was not kept, its mark failed. That is an event where
    /// the later one may cover it, as it may where `next_mark` named the place. Walks the entries
    /// to the place.
    pub fn marked(&mut self, place: u64, by: u64, slots: S, kept: bool)
        ensures view { view_of self.new ≡ marked place slots kept (view_of self.old) }
        ensures room { KeepsRoom self.old self.new }
        ensures follows { (core : Core) → is_marking_by (view_of self.old) place by ≡ true →
            Follows (view_of self.old) core →
            (may core (events.Mark place by kept) ≡ true)
            × Follows (view_of self.new) (after core (events.Mark place by kept)) }
    {
        redo(&mut self.entries, place, marked_doing(slots, kept));
    }
}
