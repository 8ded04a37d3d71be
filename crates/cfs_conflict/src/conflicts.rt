//! The conflicts of one file.

ghost use Rattle.std.specs.Prelude.{◌≡◌, ◌<◌, ◌≤◌, ◌+◌, ◌↔◌, ◌⊎◌, ℕ, None, [], IsTrue, IsSome, OnOk};
ghost use Rattle.cfs_tree.specs.Spans.{span_at, without_place, IsLeast};

use crate::questions::{blocker_of, has_positions, reader_of, to_mark_of};
use cfs_file::{NoMemory, Span};
use cfs_tree::SpanTree;
use std::alloc::Global;
use std::marker::{Brand, Model};
use std::sync::ledger::Blank;

/// The live entries and the unserved reads of a file, each by its place with its span. It has no
/// field but their two trees. Every call but `new` and `reserve` takes no memory.
#[derive(Drop)]
pub struct Conflicts {
    entries: SpanTree,
    reads: SpanTree,
}

impl Model for Conflicts {
    ghost use Rattle.cfs_conflict.specs.Conflicts.{Lists, lists_of};

    ghost Value = { Lists };

    ghost view = { λ a. lists_of a.entries a.reads };
}

impl Conflicts {
    ghost use Rattle.cfs_conflict.specs.Conflicts.{added, IsFit, Blocks, IsToMark, IsReaderOf};

    /// No entries and no reads, and no room. It takes no memory.
    pub fn new(alloc: Global) -> Conflicts
        ensures entries { result.entries ≡ [] }
        ensures reads { result.reads ≡ [] }
    {
        Conflicts {
            entries: SpanTree::new(alloc),
            reads: SpanTree::new(alloc),
        }
    }

    /// Makes room for one entry and one read more at least. Refused for want of memory alone.
    pub fn reserve(&mut self) -> Result<(), NoMemory>
        ensures entries { self.new.entries ≡ self.old.entries }
        ensures reads { self.new.reads ≡ self.old.reads }
        ensures entry_room { self.old.entry_spare ≤ self.new.entry_spare }
        ensures read_room { self.old.read_spare ≤ self.new.read_spare }
        ensures entry_ok { OnOk result (0 < self.new.entry_spare) }
        ensures read_ok { OnOk result (0 < self.new.read_spare) }
    {
        self.entries.reserve()?;
        self.reads.reserve()
    }

    /// Keeps an entry of a new place. One without positions is not kept.
    pub fn add_entry(&mut self, place: u64, span: Span)
        requires room { 0 < self.old.entry_spare }
        requires no_entry { span_at self.old.entries place ≡ None }
        requires no_read { span_at self.old.reads place ≡ None }
        requires fit { IsFit span }
        ensures entries { self.new.entries ≡ added place span self.old.entries }
        ensures reads { self.new.reads ≡ self.old.reads }
        ensures entry_room { self.old.entry_spare ≤ self.new.entry_spare + 1 }
        ensures read_room { self.new.read_spare ≡ self.old.read_spare }
    {
        if has_positions(span) {
            self.entries.insert(place, span);
        }
    }

    /// Keeps a read of a new place. One without positions is not kept.
    pub fn add_read(&mut self, place: u64, span: Span)
        requires room { 0 < self.old.read_spare }
        requires no_entry { span_at self.old.entries place ≡ None }
        requires no_read { span_at self.old.reads place ≡ None }
        requires fit { IsFit span }
        ensures entries { self.new.entries ≡ self.old.entries }
        ensures reads { self.new.reads ≡ added place span self.old.reads }
        ensures entry_room { self.new.entry_spare ≡ self.old.entry_spare }
        ensures read_room { self.old.read_spare ≤ self.new.read_spare + 1 }
    {
        if has_positions(span) {
            self.reads.insert(place, span);
        }
    }

    /// Keeps a place no longer, and answers whether it was an entry's or a read's.
    pub fn remove(&mut self, place: u64) -> bool
        ensures kept { IsTrue result ↔
            (IsSome (span_at self.old.entries place) ⊎ IsSome (span_at self.old.reads place)) }
        ensures entries { self.new.entries ≡ without_place place self.old.entries }
        ensures reads { self.new.reads ≡ without_place place self.old.reads }
        ensures entry_room { self.old.entry_spare ≤ self.new.entry_spare }
        ensures read_room { self.old.read_spare ≤ self.new.read_spare }
    {
        let was_entry = self.entries.remove(place);
        let was_read = self.reads.remove(place);
        was_entry || was_read
    }

    /// The smallest place that an entry or a read must wait for: for an entry, the smallest below
    /// it, in either list, whose span overlaps; for a read, the smallest such place among the
    /// entries. None exactly where there is none.
    pub fn blocker(&self, place: u64) -> Option<u64>
        ensures { IsLeast (Blocks self.now place) result }
    {
        blocker_of::<Brand>(&self.entries, &self.reads, place, Blank::new(1))
    }

    /// The smallest entry above `after` and below the entry `place` that this one covers and that
    /// no read with a place between the two overlaps. None exactly where there is none.
    pub fn next_to_mark(&self, place: u64, after: u64) -> Option<u64>
        ensures { IsLeast (IsToMark self.now place after) result }
    {
        to_mark_of::<Brand>(&self.entries, &self.reads, place, after, Blank::new(1))
    }

    /// The smallest read above the entry `place` that overlaps it. None exactly where
    /// there is none.
    pub fn reader_after(&self, place: u64) -> Option<u64>
        ensures { IsLeast (IsReaderOf self.now place) result }
    {
        reader_of::<Brand>(&self.entries, &self.reads, place, Blank::new(1))
    }
}
