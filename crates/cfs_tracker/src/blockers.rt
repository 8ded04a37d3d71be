//! What a read waits for.

ghost use Rattle.std.specs.Prelude.{◌≡◌, find, option_copied};
ghost use Rattle.cfs_tracker.specs.Reads.{blocker_of_read, has_needed, is_before, place_of};

use crate::spans::is_needed;
use crate::{Doing, Pending, Reading};
use cfs_file::{Span, overlaps};

/// The place of the first entry that a read waits for, else of the first whose job has a block that
/// it needs.
pub(crate) fn blocker_of_read<S>(entries: &[Pending<S>], read: &Reading) -> Option<u64>
    ensures { result ≡ blocker_of_read entries.now read.now }
{
    match place_of(first_before(entries, read)) {
        Some(place) => Some(place),
        None => place_of(first_with_needed(entries, &read.span)),
    }
}

/// The place of an entry.
pub(crate) fn place_of<S>(entry: Option<&Pending<S>>) -> Option<u64>
    ensures { result ≡ place_of (option_copied entry.entry) }
{
    match entry {
        Some(entry) => Some(entry.place),
        None => None,
    }
}

/// The first entry that a read waits for.
pub(crate) fn first_before<'a, S>(
    entries: &'a [Pending<S>],
    read: &Reading,
) -> Option<&'a Pending<S>>
    ensures { option_copied result ≡ find (is_before read.now) entries.now }
{
    entries.iter().find(|entry| is_before(read, entry))
}

fn is_before<S>(read: &Reading, entry: &Pending<S>) -> bool
    ensures { result ≡ is_before read.now entry.now }
{
    entry.place < read.place
        && entry.doing.is_live()
        && (read.is_sync || overlaps(&entry.span, &read.span))
}

/// The first entry whose job has a block that a read of the span needs.
pub(crate) fn first_with_needed<'a, S>(
    entries: &'a [Pending<S>],
    span: &Span,
) -> Option<&'a Pending<S>>
    ensures { option_copied result ≡ find (λ e. has_needed span.now e.doing) entries.now }
{
    entries.iter().find(|entry| has_needed(span, &entry.doing))
}

fn has_needed<S>(span: &Span, doing: &Doing<S>) -> bool
    ensures { result ≡ has_needed span.now doing.now }
{
    match doing {
        Doing::Out { first, second } => is_needed(*span, *first) || is_needed(*span, *second),
        Doing::Waiting(_) | Doing::Marking | Doing::Covered(_) | Doing::Closing => false,
    }
}
