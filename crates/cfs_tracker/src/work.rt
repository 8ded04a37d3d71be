//! What there is to do.

ghost use Rattle.std.specs.Prelude.{◌≡◌, ◌&&◌, Some, find, nat_lt, option_copied, option_map};
ghost use Rattle.std.specs.List.{list_any};
ghost use Rattle.cfs_tracker.specs.Passed.{IsOf};
ghost use Rattle.cfs_tracker.specs.View.{entry_at, view_of};
ghost use Rattle.cfs_tracker.specs.Work.{is_noop_doing, is_to_do, is_waiting_read, next_work};
ghost use Rattle.cfs_tracker.specs.Work.{read_waits, work_of};

use crate::find::entry_of;
use crate::passed::Passed;
use crate::{Doing, Pending, Reading, Tracker, Work};
use cfs_file::overlaps;

fn is_noop<S>(doing: &Doing<S>) -> bool
    ensures { result ≡ is_noop_doing doing.now }
{
    matches!(doing, Doing::Covered(_))
}

fn read_waits<S>(reads: &[Reading], entry: &Pending<S>) -> bool
    ensures { result ≡ read_waits reads.now entry.now }
{
    entry.doing.is_live() && has_waiting_read(reads, entry)
}

fn has_waiting_read<S>(reads: &[Reading], entry: &Pending<S>) -> bool
    ensures { result ≡ list_any (is_waiting_read entry.now) reads.now }
{
    reads.iter().any(|read| {
        entry.place < read.place && (read.is_sync || overlaps(&read.span, &entry.span))
    })
}

impl<S: Drop, D: Drop, B: Drop> Tracker<S, D, B> {
    /// The first place behind `after` that is a no-op with its slots, or a change that a job may
    /// take.
    ///
    /// It walks the entries to the answer once, and compares each with at most eight stretches of
    /// those that it has passed. For the answer, and for a change before it that overlaps none of
    /// these, it also walks the blocks of the span, the reads, and the entries to what is ahead.
    pub fn next_work(&self, after: u64) -> Option<Work>
        ensures { result ≡ next_work (view_of self.now) after }
    {
        match self.first_to_do(after) {
            Some(entry) => Some(self.work_of(entry)),
            None => None,
        }
    }

    fn first_to_do(&self, after: u64) -> Option<&Pending<S>>
        ensures { option_copied result ≡
            find (λ e. nat_lt after e.place && is_to_do (view_of self.now) e)
            (view_of self.now).entries }
    {
        let mut passed = Passed::new();
        for entry in self.entries.iter() {
            if self.is_next(after, entry, &passed) {
                return Some(entry);
            }
            passed.pass(entry);
        }
        None
    }

    fn is_next(&self, after: u64, entry: &Pending<S>, passed: &Passed) -> bool
        requires { IsOf (view_of self.now).entries passed.now }
        ensures { result ≡ (nat_lt after entry.now.place && is_to_do (view_of self.now) entry.now) }
    {
        after < entry.place && (is_noop(&entry.doing) || self.may_take(entry, passed))
    }

    fn work_of(&self, entry: &Pending<S>) -> Work
        ensures { result ≡ work_of (view_of self.now) entry.now }
    {
        Work {
            place: entry.place,
            is_noop: is_noop(&entry.doing),
            read_waits: read_waits(self.reads.as_slice(), entry),
            passed: entry.passed,
        }
    }

    /// The entry of a place. Walks the entries to it.
    pub fn entry(&self, place: u64) -> Option<&Pending<S>>
        ensures { option_copied result ≡ entry_at (view_of self.now).entries place }
    {
        entry_of(self.entries.as_slice(), place)
    }

    /// The first entry behind a place. Walks the entries to it.
    pub fn next_entry(&self, after: u64) -> Option<&Pending<S>>
        ensures { option_copied result ≡
            find (λ e. nat_lt after e.place) (view_of self.now).entries }
    {
        self.entries.iter().find(|entry| after < entry.place)
    }
}
