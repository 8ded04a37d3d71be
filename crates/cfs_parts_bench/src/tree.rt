//! A tree of spans.
ghost use Rattle.std.specs.Prelude.{◌≡◌, ◌<◌};

use crate::plain::{drawn, place_at, span_from};
use cfs_file::{NoMemory, Span};
use cfs_tree::{SpanTree, Steps};
use std::alloc::Global;
use std::sync::ledger::{Blank, Ledger};

/// What is done with a tree.
#[derive(Clone, Copy, Debug, PartialEq, Eq)]
pub enum Work {
    /// It is made.
    Insert,
    /// It is made and emptied.
    Remove,
    /// It is asked for the first overlap.
    Overlap,
    /// It is asked for the next span that is covered.
    Covered,
}

/// Does this work so many times with a tree of so many spans.
pub fn run<L: Ledger>(
    alloc: Global,
    work: Work,
    size: u32,
    count: u32,
    blank: Blank,
) -> Result<u64, NoMemory>
    requires name { blank.name ≡ L.name }
    requires parts { blank.parts ≡ L.parts }
    requires some { 0 < L.parts }
{
    let mut steps = Steps::<L>::new(blank);
    match work {
        Work::Insert | Work::Remove => fill_all(alloc, work, size, count, &mut steps),
        Work::Overlap | Work::Covered => {
            let tree = filled(alloc, size, &mut steps)?;
            Ok(ask_all(&tree, work, size, count, &mut steps))
        }
    }
}

/// Keeps the span of a place, if it is new.
fn keep<L: Ledger>(tree: &mut SpanTree, place: u32, steps: &mut Steps<L>) -> Result<(), NoMemory> {
    tree.reserve()?;
    if tree.find(u64::from(place), steps).is_none() {
        let from = 10 * u64::from(place);
        tree.insert(u64::from(place), Span::Range { from, to: from + 5 });
    }
    Ok(())
}

/// A tree of so many spans.
fn filled<L: Ledger>(alloc: Global, size: u32, steps: &mut Steps<L>) -> Result<SpanTree, NoMemory> {
    let mut tree = SpanTree::new(alloc);
    for index in 0..size {
        keep(&mut tree, place_at(index, size), steps)?;
    }
    Ok(tree)
}

/// Makes trees, and empties them if that is asked for.
fn fill_all<L: Ledger>(
    alloc: Global,
    work: Work,
    size: u32,
    count: u32,
    steps: &mut Steps<L>,
) -> Result<u64, NoMemory> {
    let mut removed: u64 = 0;
    for _ in 0..count {
        let mut tree = filled(alloc, size, steps)?;
        if work == Work::Remove {
            for index in 0..size {
                if tree.remove(u64::from(place_at(size - index, size))) {
                    removed = removed.wrapping_add(1);
                }
            }
        }
    }
    Ok(removed)
}

/// Asks a tree for the spans that meet drawn ones.
fn ask_all<L: Ledger>(
    tree: &SpanTree,
    work: Work,
    size: u32,
    count: u32,
    steps: &mut Steps<L>,
) -> u64 {
    let mut sum: u64 = 0;
    let mut state = 7;
    for _ in 0..count {
        state = drawn(state);
        let asked = span_from(state, size);
        let found = if work == Work::Overlap {
            tree.first_overlap_between(&asked, 0, u64::MAX, steps)
        } else {
            tree.next_covered(&asked, 0, u64::MAX, steps)
        };
        sum = sum.wrapping_add(found.unwrap_or(0));
    }
    sum
}
