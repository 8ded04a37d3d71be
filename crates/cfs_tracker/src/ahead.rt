//! What a change waits for.

ghost use Rattle.std.specs.Prelude.{◌≡◌, find, option_copied};
ghost use Rattle.cfs_tracker.specs.Dispatch.{is_ahead, is_read_ahead, lesser, read_place};

use crate::{Pending, Reading};
use cfs_file::{Span, overlaps};

/// The first live entry before a place that overlaps the span.
pub(crate) fn first_ahead<'a, S>(
    entries: &'a [Pending<S>],
    place: u64,
    span: &Span,
) -> Option<&'a Pending<S>>
    ensures { option_copied result ≡ find (is_ahead place span.now) entries.now }
{
    entries.iter().find(|entry| is_ahead(place, span, entry))
}

fn is_ahead<S>(place: u64, span: &Span, entry: &Pending<S>) -> bool
    ensures { result ≡ is_ahead place span.now entry.now }
{
    entry.place < place && entry.doing.is_live() && overlaps(&entry.span, span)
}

/// The place of the first read before a place that overlaps the span.
pub(crate) fn first_read_ahead(reads: &[Reading], place: u64, span: &Span) -> Option<u64>
    ensures { result ≡ read_place (find (is_read_ahead place span.now) reads.now) }
{
    read_place(find_read_ahead(reads, place, span))
}

fn find_read_ahead<'a>(reads: &'a [Reading], place: u64, span: &Span) -> Option<&'a Reading>
    ensures { option_copied result ≡ find (is_read_ahead place span.now) reads.now }
{
    reads
        .iter()
        .find(|read| read.place < place && overlaps(&read.span, span))
}

fn read_place(read: Option<&Reading>) -> Option<u64>
    ensures { result ≡ read_place (option_copied read.entry) }
{
    match read {
        Some(read) => Some(read.place),
        None => None,
    }
}

/// The lesser of two places.
pub(crate) fn lesser(one: Option<u64>, other: Option<u64>) -> Option<u64>
    ensures { result ≡ lesser one other }
{
    match (one, other) {
        (Some(one), Some(other)) => Some(if one <= other { one } else { other }),
        (Some(one), None) => Some(one),
        (None, other) => other,
    }
}
