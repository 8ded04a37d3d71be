//! What is asked of the two trees. No one counts the steps.

ghost use Rattle.std.specs.Prelude.{◌≡◌, ◌<◌, ◌↔◌, ℕ, Option, None, Some, min};
ghost use Rattle.cfs_tree.specs.Spans.{IsLeast};
ghost use Rattle.cfs_tree.specs.Search.{lesser_of};
ghost use Rattle.cfs_conflict.specs.Conflicts.{Blocks, IsReaderOf, IsToMark, ReadBetween, lists_of, some_position};

use cfs_file::Span;
use cfs_tree::{SpanTree, Steps};
use std::sync::ledger::{Blank, Ledger};

/// Whether the span has a position.
pub(crate) fn has_positions(span: Span) -> bool
    ensures { result ≡ some_position span }
{
    match span {
        Span::Nothing => false,
        Span::Range { from, to } => from < to,
        Span::From { .. } => true,
    }
}

pub(crate) fn blocker_of<L: Ledger>(
    entries: &SpanTree,
    reads: &SpanTree,
    place: u64,
    blank: Blank,
) -> Option<u64>
    requires name { blank.name ≡ L.name }
    requires parts { blank.parts ≡ L.parts }
    requires some { 0 < L.parts }
    ensures { IsLeast (Blocks (lists_of entries.now reads.now) place) result }
{
    let mut steps = Steps::<L>::new(blank);
    match entries.find(place, &mut steps) {
        Some(span) => {
            let entry = entries.first_overlap_between(&span, 0, place, &mut steps);
            let read = reads.first_overlap_between(&span, 0, place, &mut steps);
            lesser(entry, read)
        }
        None => match reads.find(place, &mut steps) {
            Some(span) => entries.first_overlap_between(&span, 0, place, &mut steps),
            None => None,
        },
    }
}

pub(crate) fn reader_of<L: Ledger>(
    entries: &SpanTree,
    reads: &SpanTree,
    place: u64,
    blank: Blank,
) -> Option<u64>
    requires name { blank.name ≡ L.name }
    requires parts { blank.parts ≡ L.parts }
    requires some { 0 < L.parts }
    ensures { IsLeast (IsReaderOf (lists_of entries.now reads.now) place) result }
{
    let mut steps = Steps::<L>::new(blank);
    match entries.find(place, &mut steps) {
        Some(span) => reads.first_overlap_between(&span, place, u64::MAX, &mut steps),
        None => None,
    }
}

pub(crate) fn to_mark_of<L: Ledger>(
    entries: &SpanTree,
    reads: &SpanTree,
    place: u64,
    after: u64,
    blank: Blank,
) -> Option<u64>
    requires name { blank.name ≡ L.name }
    requires parts { blank.parts ≡ L.parts }
    requires some { 0 < L.parts }
    ensures { IsLeast (IsToMark (lists_of entries.now reads.now) place after) result }
{
    let mut steps = Steps::<L>::new(blank);
    let Some(span) = entries.find(place, &mut steps) else {
        return None;
    };
    let mut passed = after;
    while let Some(covered) = entries.next_covered(&span, passed, place, &mut steps) {
        if !is_read_between(entries, reads, covered, place, &mut steps) {
            return Some(covered);
        }
        passed = covered;
    }
    None
}

/// Whether a read with a place between the two overlaps the first, which is an entry.
fn is_read_between<L: Ledger>(
    entries: &SpanTree,
    reads: &SpanTree,
    first: u64,
    last: u64,
    steps: &mut Steps<L>,
) -> bool
    ensures { ReadBetween result (lists_of entries.now reads.now) first last }
{
    match entries.find(first, steps) {
        Some(span) => reads
            .first_overlap_between(&span, first, last, steps)
            .is_some(),
        None => false,
    }
}

fn lesser(a: Option<u64>, b: Option<u64>) -> Option<u64>
    ensures { result ≡ lesser_of a b }
{
    match (a, b) {
        (Some(a), Some(b)) => Some(a.min(b)),
        (None, other) | (other, None) => other,
    }
}
