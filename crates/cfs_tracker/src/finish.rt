//! A job ends.

ghost use Rattle.std.specs.Prelude.{◌≡◌, ◌↔◌, IsTrue, true, option_copied};
ghost use Rattle.cfs_core.specs.declared.event.End.TheVariants as ends;
ghost use Rattle.cfs_core.specs.declared.event.Event.TheVariants as events;
ghost use Rattle.cfs_core.specs.declared.event.SizeEnd.TheVariants as sizes;
ghost use Rattle.cfs_core.specs.declared.flag.Flag.TheVariants as flags;
ghost use Rattle.cfs_core.specs.declared.inode_core.Core.{Core};
ghost use Rattle.cfs_core.specs.Words.{is_through, track};
ghost use Rattle.cfs_core.specs.May.{may};
ghost use Rattle.cfs_core.specs.After.{after};
ghost use Rattle.cfs_tracker.specs.Finish.{IsOut, applied, applied_at, as_far, blocks_out, is_last};
ghost use Rattle.cfs_tracker.specs.Finish.{more, put_back, retired, size_after, size_unsure};
ghost use Rattle.cfs_tracker.specs.Finish.{span_in};
ghost use Rattle.cfs_tracker.specs.Follows.{Follows};
ghost use Rattle.cfs_tracker.specs.View.{KeepsRoom, entry_at, view_of};

use crate::ending::{bring_both, is_last_of, is_out_with, number_of, sized, wait_again};
use crate::find::{drop_entry, entry_of, redo};
use crate::{Doing, Tile, Tracker};
use cfs_file::Span;

impl<S: Drop, D: Drop, B: Drop> Tracker<S, D, B> {
    /// Whether the entry at a place wants no block behind those of its job, so that it is to be
    /// retired once its job is through; else more is to come. Walks the entries to the place, and
    /// the blocks of its span behind those that are done.
    pub fn is_last(&self, place: u64) -> bool
        ensures { result ≡ is_last (view_of self.now) place }
    {
        is_last_of(
            self.cells.as_slice(),
            entry_of(self.entries.as_slice(), place),
        )
    }

    /// The size word as it reads, in bytes, and whether it has that value in every image. Walks
    /// nothing.
    pub fn size(&self) -> (u64, bool)
        ensures { result ≡ ((view_of self.now).stored, (view_of self.now).is_sure) }
    {
        (self.stored, self.is_sure)
    }

    /// What the size word is to be for the entry at a place, in bytes. Walks the entries to the
    /// place.
    pub fn size_after(&self, place: u64) -> u64
        ensures { result ≡ size_after (view_of self.now) place }
    {
        match entry_of(self.entries.as_slice(), place) {
            Some(entry) => sized(self.stored, entry.span),
            None => self.stored,
        }
    }

    /// The positions of the entry at a place.
    pub fn span(&self, place: u64) -> Span
        ensures { result ≡ span_in (entry_at (view_of self.now).entries place) }
    {
        match entry_of(self.entries.as_slice(), place) {
            Some(entry) => entry.span,
            None => Span::Nothing,
        }
    }

    /// Whether the entry at a place is out with these blocks. Walks the entries to the place.
    pub fn is_out(&self, place: u64, first: &Option<Tile<B>>, second: &Option<Tile<B>>) -> bool
        ensures { IsTrue result ↔ IsOut (view_of self.now) place first.now second.now }
    {
        is_out_with(
            entry_of(self.entries.as_slice(), place),
            number_of(first),
            number_of(second),
        )
    }

    /// The entry at a place is retired: its job was through, the size word is as `size_after` says,
    /// and its gate is closed. Between the two steps, where the size word is set and the gate is as
    /// it was, the core is the one after the end that `sized` names. Walks the entries twice.
    pub fn retired(&mut self, place: u64, first: Option<Tile<B>>, second: Option<Tile<B>>)
        requires out { IsOut (view_of self.old) place first second }
        requires last { is_last (view_of self.old) place ≡ true }
        ensures view { view_of self.new ≡ retired place first second (view_of self.old) }
        ensures room { KeepsRoom self.old self.new }
        ensures sized { (core : Core) → Follows (view_of self.old) core →
            is_through (track core.tracks place).state ≡ true →
            let end = ends.Back sizes.Set (track core.tracks place).gate true in
            may core (events.Finish place end) ≡ true }
        ensures follows { (core : Core) → Follows (view_of self.old) core →
            is_through (track core.tracks place).state ≡ true →
            (may core (events.Finish place ends.Retired) ≡ true)
            × Follows (view_of self.new) (after core (events.Finish place ends.Retired)) }
    {
        self.stored = self.size_after(place);
        self.is_sure = true;
        bring_both(&mut self.cells, first, second);
        drop_entry(&mut self.entries, place);
    }

    /// The blocks of the job at a place are done, and more are to come: the entry waits again.
    /// Walks the entries to the place.
    pub fn more(&mut self, place: u64, slots: S, first: Option<Tile<B>>, second: Option<Tile<B>>)
        requires { IsOut (view_of self.old) place first second }
        ensures view { view_of self.new ≡ more place slots first second (view_of self.old) }
        ensures room { KeepsRoom self.old self.new }
        ensures follows { (core : Core) → Follows (view_of self.old) core →
            is_through (track core.tracks place).state ≡ true →
            (may core (events.Finish place ends.More) ≡ true)
            × Follows (view_of self.new) (after core (events.Finish place ends.More)) }
    {
        let done = (number_of(&first), number_of(&second));
        wait_again(&mut self.entries, place, slots, false, done);
        bring_both(&mut self.cells, first, second);
    }

    /// The job at a place is put back, however far it came, or the size word could not be written
    /// for it: the entry waits again. Walks the entries to the place.
    pub fn put_back(
        &mut self,
        place: u64,
        slots: S,
        first: Option<Tile<B>>,
        second: Option<Tile<B>>,
    )
        requires { IsOut (view_of self.old) place first second }
        ensures view { view_of self.new ≡ put_back place slots first second (view_of self.old) }
        ensures room { KeepsRoom self.old self.new }
        ensures follows { (core : Core) → Follows (view_of self.old) core →
            let end = as_far (view_of self.old) place sizes.AsBefore in
            (may core (events.Finish place end) ≡ true)
            × Follows (view_of self.new) (after core (events.Finish place end)) }
    {
        redo(&mut self.entries, place, Doing::Waiting(slots));
        bring_both(&mut self.cells, first, second);
    }

    /// The size word was written for the entry at a place, and may have its old value or the new
    /// one: the entry waits again. Walks the entries to the place twice.
    pub fn size_unsure(
        &mut self,
        place: u64,
        slots: S,
        first: Option<Tile<B>>,
        second: Option<Tile<B>>,
    )
        requires { IsOut (view_of self.old) place first second }
        ensures view { view_of self.new ≡ size_unsure place slots first second (view_of self.old) }
        ensures room { KeepsRoom self.old self.new }
        ensures follows { (core : Core) → Follows (view_of self.old) core →
            let end = as_far (view_of self.old) place sizes.Either in
            (may core (events.Finish place end) ≡ true)
            × Follows (view_of self.new) (after core (events.Finish place end)) }
    {
        self.stored = self.size_after(place);
        self.is_sure = false;
        self.put_back(place, slots, first, second);
    }

    /// The size word was set for the entry at a place, whose job was through, and its gate may be
    /// open or closed: the entry waits again, and is applied. Walks the entries to the place twice.
    pub fn applied(&mut self, place: u64, slots: S, first: Option<Tile<B>>, second: Option<Tile<B>>)
        requires out { IsOut (view_of self.old) place first second }
        requires last { is_last (view_of self.old) place ≡ true }
        ensures view { view_of self.new ≡ applied place slots first second (view_of self.old) }
        ensures room { KeepsRoom self.old self.new }
        ensures follows { (core : Core) → Follows (view_of self.old) core →
            is_through (track core.tracks place).state ≡ true →
            let end = ends.Back sizes.Set flags.Unsure true in
            (may core (events.Finish place end) ≡ true)
            × Follows (view_of self.new) (after core (events.Finish place end)) }
    {
        self.stored = self.size_after(place);
        self.is_sure = true;
        wait_again(&mut self.entries, place, slots, true, (None, None));
        bring_both(&mut self.cells, first, second);
    }
}
