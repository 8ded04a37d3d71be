//! A job takes a change and its next blocks.

ghost use Rattle.std.specs.Prelude.{◌≡◌, ◌<◌, Some, find, is_none, length, option_copied, true, ℕ};
ghost use Rattle.std.specs.List.{list_all, range_with_len};
ghost use Rattle.cfs_file.specs.declared.sizes.TheConstants.{FILE_BLOCKS};
ghost use Rattle.cfs_core.specs.declared.event.Event.TheVariants as events;
ghost use Rattle.cfs_core.specs.declared.inode_core.Core.{Core};
ghost use Rattle.cfs_core.specs.May.{may};
ghost use Rattle.cfs_core.specs.After.{after};
ghost use Rattle.cfs_tracker.specs.declared.step.Step.TheVariants.{Takes as takes};
ghost use Rattle.cfs_tracker.specs.Dispatch.{ahead, are_still, dispatched, first_cell, holder};
ghost use Rattle.cfs_tracker.specs.Dispatch.{is_still, lesser, second_cell, step_at, step_behind};
ghost use Rattle.cfs_tracker.specs.Dispatch.{step_of, step_of_blocks, tile_at, waiting_slots};
ghost use Rattle.cfs_tracker.specs.Finish.{IsOut};
ghost use Rattle.cfs_tracker.specs.Follows.{Follows};
ghost use Rattle.cfs_tracker.specs.Passed.{IsOf};
ghost use Rattle.cfs_tracker.specs.View.{KeepsRoom, entry_at, view_of};
ghost use Rattle.cfs_tracker.specs.Work.{takes_now};

use crate::ahead::{first_ahead, first_read_ahead, lesser};
use crate::blockers::place_of;
use crate::find::entry_of;
use crate::lending::{holder, is_still, lend, next_cell};
use crate::passed::Passed;
use crate::sending::send;
use crate::{Doing, Pending, Step, Taken, Tracker};

fn takes_now(step: Step) -> bool
    ensures { result ≡ takes_now step }
{
    matches!(step, Step::Takes { .. })
}

impl<S: Drop, D: Drop, B: Drop> Tracker<S, D, B> {
    /// What becomes of the change at a place: a job may take it; or it waits, for the first earlier
    /// live entry or read that overlaps it, else for the first entry whose job has a block that it
    /// needs; or no change waits there. Walks the entries twice, the reads once, and the blocks of
    /// the change's span once.
    pub fn step(&self, place: u64) -> Step
        ensures { result ≡ step_at (view_of self.now) place }
    {
        match entry_of(self.entries.as_slice(), place) {
            Some(entry) => self.step_of(entry),
            None => Step::NotWaiting,
        }
    }

    fn step_of(&self, entry: &Pending<S>) -> Step
        ensures { result ≡ step_of (view_of self.now) (Some entry.now) }
    {
        if entry.doing.is_waiting() {
            self.step_behind(entry, self.ahead(entry))
        } else {
            Step::NotWaiting
        }
    }

    /// Whether `step_of` says that a job may take the change. The first that is found in its way
    /// ends the search: what a walk has passed, a block, a read, an entry.
    pub(crate) fn may_take(&self, entry: &Pending<S>, passed: &Passed) -> bool
        requires { IsOf (view_of self.now).entries passed.now }
        ensures { result ≡ takes_now (step_of (view_of self.now) (Some entry.now)) }
    {
        !passed.is_before(entry) && self.is_ready(entry)
    }

    fn is_ready(&self, entry: &Pending<S>) -> bool
        ensures { result ≡ takes_now (step_of (view_of self.now) (Some entry.now)) }
    {
        entry.doing.is_waiting() && takes_now(self.step_behind(entry, None)) && self.is_clear(entry)
    }

    fn is_clear(&self, entry: &Pending<S>) -> bool
        ensures { result ≡ is_none (ahead (view_of self.now) entry.now) }
    {
        first_read_ahead(self.reads.as_slice(), entry.place, &entry.span).is_none()
            && first_ahead(self.entries.as_slice(), entry.place, &entry.span).is_none()
    }

    fn ahead(&self, entry: &Pending<S>) -> Option<u64>
        ensures { result ≡ ahead (view_of self.now) entry.now }
    {
        lesser(
            place_of(first_ahead(self.entries.as_slice(), entry.place, &entry.span)),
            first_read_ahead(self.reads.as_slice(), entry.place, &entry.span),
        )
    }

    fn step_behind(&self, entry: &Pending<S>, ahead: Option<u64>) -> Step
        ensures { result ≡ step_behind (view_of self.now) entry.now ahead }
    {
        match ahead {
            Some(place) => Step::NotYet(place),
            None => {
                let first = self.first_cell(entry);
                self.step_of_blocks(first, self.second_cell(entry, first))
            }
        }
    }

    fn first_cell(&self, entry: &Pending<S>) -> Option<u64>
        ensures { result ≡ first_cell (view_of self.now).cells entry.now }
    {
        if entry.applied {
            None
        } else {
            next_cell(self.cells.as_slice(), &entry.span, entry.done)
        }
    }

    fn second_cell(&self, entry: &Pending<S>, first: Option<u64>) -> Option<u64>
        ensures { result ≡ second_cell (view_of self.now).cells entry.now.span first }
    {
        match first {
            Some(block) => next_cell(self.cells.as_slice(), &entry.span, Some(block)),
            None => None,
        }
    }

    fn step_of_blocks(&self, first: Option<u64>, second: Option<u64>) -> Step
        ensures { result ≡ step_of_blocks (view_of self.now).cells first second }
    {
        let cells = self.cells.as_slice();
        match lesser(holder(cells, first), holder(cells, second)) {
            Some(place) => Step::NotYet(place),
            None => Step::Takes { first, second },
        }
    }

    /// Whether neither of these two blocks of the file is in the caller's hands with its tag set.
    /// It looks at these two alone; where no block at all is so (`none`), it holds.
    pub fn are_still(&self, first: Option<u64>, second: Option<u64>) -> bool
        ensures blocks { result ≡ are_still (view_of self.now).cells first second }
        ensures none { list_all (λ cell. is_still cell) (view_of self.now).cells ≡ true →
            result ≡ true }
    {
        let cells = self.cells.as_slice();
        is_still(cells, first) && is_still(cells, second)
    }

    /// A job takes the change at a place, as `step` says, with these blocks. Walks the entries to
    /// the place.
    pub fn dispatch(&mut self, place: u64, first: Option<u64>, second: Option<u64>) -> Taken<S, B>
        requires ready { step_at (view_of self.old) place ≡ takes first second }
        requires still { are_still (view_of self.old).cells first second ≡ true }
        ensures slots { waiting_slots (entry_at (view_of self.old).entries place) ≡
            Some result.slots }
        ensures first { result.first ≡ tile_at (view_of self.old).cells first }
        ensures second { result.second ≡ tile_at (view_of self.old).cells second }
        ensures ascend { (one two : ℕ) → first ≡ Some one → second ≡ Some two → one < two }
        ensures out { IsOut (view_of self.new) place result.first result.second }
        ensures view { view_of self.new ≡ dispatched place first second (view_of self.old) }
        ensures room { KeepsRoom self.old self.new }
        ensures follows { (core : Core) → Follows (view_of self.old) core →
            (may core (events.Dispatch place) ≡ true)
            × Follows (view_of self.new) (after core (events.Dispatch place)) }
    {
        let slots = match send(&mut self.entries, place, first, second) {
            Some(Doing::Waiting(slots)) => slots,
            Some(Doing::Marking | Doing::Out { .. } | Doing::Covered(_) | Doing::Closing) | None =>
                { unreachable!() }
        };
        let one = lend(&mut self.cells, first, place);
        let two = lend(&mut self.cells, second, place);
        Taken {
            slots,
            first: one,
            second: two,
        }
    }
}
