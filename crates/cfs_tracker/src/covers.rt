//! Which waiting changes a later one covers.

ghost use Rattle.std.specs.Prelude.{◌≡◌, find, option_copied};
ghost use Rattle.std.specs.List.{list_any};
ghost use Rattle.cfs_tracker.specs.Mark.{is_next_mark, is_read_between, may_cover, may_mark_both};

use crate::{Doing, Pending, Reading};
use cfs_file::{Span, covers, overlaps};

/// The first waiting entry behind a place that the later one may make a no-op.
pub(crate) fn first_to_mark<'a, S>(
    entries: &'a [Pending<S>],
    reads: &[Reading],
    later: &Pending<S>,
    after: u64,
) -> Option<&'a Pending<S>>
    ensures { option_copied result ≡ find (is_next_mark reads.now later.now after) entries.now }
{
    entries
        .iter()
        .find(|entry| is_next_mark(reads, later, after, entry))
}

fn is_next_mark<S>(reads: &[Reading], later: &Pending<S>, after: u64, entry: &Pending<S>) -> bool
    ensures { result ≡ is_next_mark reads.now later.now after entry.now }
{
    after < entry.place && entry.doing.is_waiting() && may_cover(reads, later, entry)
}

/// Whether the earlier one is to be marked, and the later one covers it.
pub(crate) fn may_mark_both<S>(
    reads: &[Reading],
    later: Option<&Pending<S>>,
    entry: Option<&Pending<S>>,
) -> bool
    ensures { result ≡ may_mark_both reads.now (option_copied later.entry)
        (option_copied entry.entry) }
{
    match (later, entry) {
        (Some(later), Some(entry)) => {
            matches!(entry.doing, Doing::Marking) && may_cover(reads, later, entry)
        }
        (None, _) | (_, None) => false,
    }
}

fn may_cover<S>(reads: &[Reading], later: &Pending<S>, entry: &Pending<S>) -> bool
    ensures { result ≡ may_cover reads.now later.now entry.now }
{
    entry.place < later.place
        && later.doing.is_live()
        && covers(&later.span, &entry.span)
        && !is_read_between(reads, entry.place, later.place, &entry.span)
}

fn is_read_between(reads: &[Reading], place: u64, by: u64, span: &Span) -> bool
    ensures { result ≡ list_any (is_read_between place by span.now) reads.now }
{
    reads.iter().any(|read| place < read.place && read.place < by && overlaps(&read.span, span))
}
