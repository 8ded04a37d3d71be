//! Other work is chosen while a change stands ready.

ghost use Rattle.std.specs.Prelude.{◌≡◌, vec_capacity, vec_len};
ghost use Rattle.cfs_core.specs.declared.inode_core.Core.{Core};
ghost use Rattle.cfs_tracker.specs.Follows.{Follows};
ghost use Rattle.cfs_tracker.specs.View.{KeepsRoom, view_of, with_entry};
ghost use Rattle.cfs_tracker.specs.Work.{noted, passed_entry};

use crate::find::position_of;
use crate::{Pending, Tracker};

fn pass_entry<S: Drop>(entry: &mut Pending<S>)
    ensures { entry.new ≡ passed_entry entry.old }
{
    entry.passed = entry.passed.saturating_add(1);
}

fn pass_in<S: Drop>(entries: &mut [Pending<S>], place: u64)
    ensures { entries.new ≡ with_entry place passed_entry entries.old }
{
    let Some(at) = position_of(entries, place) else {
        return;
    };
    pass_entry(&mut entries[at]);
}

/// Other work was chosen while the first entry of a place stood ready.
fn pass<S: Drop>(entries: &mut Vec<Pending<S>>, place: u64)
    ensures items { entries.new.items ≡ with_entry place passed_entry entries.old.items }
    ensures room { vec_capacity entries.new ≡ vec_capacity entries.old }
    ensures long { vec_len entries.new ≡ vec_len entries.old }
{
    pass_in(entries.as_mut_slice(), place);
}

impl<S: Drop, D: Drop, B: Drop> Tracker<S, D, B> {
    /// Other work was chosen while the change at a place stood ready: it counts that, up to
    /// 2^64 - 1. Nothing changes where no entry has the place. Walks the entries to the place.
    pub fn note_passed(&mut self, place: u64)
        ensures view { view_of self.new ≡ noted place (view_of self.old) }
        ensures room { KeepsRoom self.old self.new }
        ensures follows { (core : Core) → Follows (view_of self.old) core →
            Follows (view_of self.new) core }
    {
        pass(&mut self.entries, place);
    }
}
