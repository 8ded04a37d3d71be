//! Reads and syncs are admitted, served and dropped.

ghost use Rattle.std.specs.Prelude.{◌≡◌, ◌+◌, ◌<◌, ◌^◌, ℕ, List, None, Some, true, is_some, option_copied, vec_capacity, vec_len};
ghost use Rattle.cfs_file.specs.declared.entry.Entry.{Entry};
ghost use Rattle.cfs_core.specs.declared.event.Event.TheVariants as events;
ghost use Rattle.cfs_core.specs.declared.inode_core.Core.{Core};
ghost use Rattle.cfs_core.specs.Words.{track};
ghost use Rattle.cfs_core.specs.May.{are_stored, is_query, may};
ghost use Rattle.cfs_core.specs.After.{after};
ghost use Rattle.cfs_tracker.specs.Follows.{Follows};
ghost use Rattle.cfs_tracker.specs.Reads.{blocker_of, read_admitted, read_ended, reading};
ghost use Rattle.cfs_tracker.specs.View.{KeepsRoom, read_at, view_of};

use crate::blockers::blocker_of_read;
use crate::find::{drop_read, read_of};
use crate::{Reading, Tracker};
use cfs_file::{Request, span_of};

impl<S: Drop, D: Drop, B: Drop> Tracker<S, D, B> {
    /// A read or a sync takes the next place. Walks nothing.
    pub fn admit_read(&mut self, request: &Request) -> Reading
        requires query { is_query request.now ≡ true }
        requires places { (view_of self.old).count + 1 < 2 ^ 64 }
        requires room { vec_len self.old.reads < vec_capacity self.old.reads }
        ensures reading { result ≡ reading request.now (view_of self.old) }
        ensures view { view_of self.new ≡ read_admitted request.now (view_of self.old) }
        ensures follows { (core : Core) (entry : Entry) → Follows (view_of self.old) core →
            entry.place ≡ (view_of self.old).count + 1 → entry.request ≡ request.now →
            (may core (events.AdmitRead entry) ≡ true)
            × Follows (view_of self.new) (after core (events.AdmitRead entry)) }
    {
        let reading = self.reading(request);
        self.count += 1;
        match self.reads.push(reading) {
            Ok(()) => reading,
            Err(_) => unreachable!(),
        }
    }

    fn reading(&self, request: &Request) -> Reading
        requires query { is_query request.now ≡ true }
        requires places { (view_of self.now).count + 1 < 2 ^ 64 }
        ensures { result ≡ reading request.now (view_of self.now) }
    {
        Reading {
            place: self.count + 1,
            span: span_of(request, self.long),
            is_sync: matches!(request, Request::Sync),
        }
    }

    /// The read or sync of a place that is not answered yet. Walks the reads to the place.
    pub fn read(&self, place: u64) -> Option<Reading>
        ensures { result ≡ read_at (view_of self.now).reads place }
    {
        read_of(self.reads.as_slice(), place)
    }

    /// What the read at a place waits for: the first earlier live entry that overlaps it, for a
    /// sync the first earlier live entry; else the first entry whose job has a block that it needs.
    /// None exactly where it waits for nothing, or the place has no read. Walks the reads to the
    /// place, and the entries twice.
    pub fn read_blocker(&self, place: u64) -> Option<u64>
        ensures { result ≡ blocker_of (view_of self.now).entries
            (read_at (view_of self.now).reads place) }
    {
        let read = self.read(place)?;
        blocker_of_read(self.entries.as_slice(), &read)
    }

    /// The read at a place got its answer. It waits for nothing. Walks the reads once.
    pub fn served(&mut self, place: u64)
        requires there { is_some (read_at (view_of self.old).reads place) ≡ true }
        requires ready { blocker_of (view_of self.old).entries
            (read_at (view_of self.old).reads place) ≡ None }
        ensures view { view_of self.new ≡ read_ended place (view_of self.old) }
        ensures room { KeepsRoom self.old self.new }
        ensures follows { (core : Core) (bytes : List ℕ) → Follows (view_of self.old) core →
            are_stored core (track core.tracks place).span bytes ≡ true →
            (may core (events.Serve place (Some bytes)) ≡ true)
            × Follows (view_of self.new) (after core (events.Serve place (Some bytes))) }
    {
        drop_read(&mut self.reads, place);
    }

    /// The read at a place is dropped. Walks the reads once.
    pub fn dropped(&mut self, place: u64)
        requires { is_some (read_at (view_of self.old).reads place) ≡ true }
        ensures view { view_of self.new ≡ read_ended place (view_of self.old) }
        ensures room { KeepsRoom self.old self.new }
        ensures follows { (core : Core) → Follows (view_of self.old) core →
            (may core (events.Serve place None) ≡ true)
            × Follows (view_of self.new) (after core (events.Serve place None)) }
    {
        drop_read(&mut self.reads, place);
    }
}
