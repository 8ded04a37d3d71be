ghost use Rattle.std.specs.Prelude.{◌≡◌, ◌<◌, ◌≤◌, ◌+◌, ◌^◌, length, true, Ok};
ghost use Rattle.cfs_tree.specs.Spans.{IsBounded, insert_in_order, overlap_count};
ghost use Rattle.cfs_file.specs.declared.span.Span.TheVariants.{Range as TheRange};

use cfs_file::{NoMemory, Span, covers, overlaps};
use cfs_tree::{SpanTree, Steps};
use std::alloc::Global;
use std::marker::Brand;
use std::process::Abort;
use std::sync::ledger::{Blank, Ledger};
use std::test::Fail;

const NOTHING: Span = Span::Nothing;

/// Keeps a span for a place that is new, and answers whether it was.
fn keep<L: Ledger>(
    tree: &mut SpanTree,
    place: u64,
    from: u64,
    to: u64,
    steps: &mut Steps<L>,
) -> Result<bool, NoMemory>
    requires order { from < to }
    requires fits { to + 1 < 2 ^ 64 }
    ensures kept { result ≡ Ok true →
        tree.new.spans ≡ insert_in_order (place, TheRange from to) tree.old.spans }
{
    tree.reserve()?;
    if tree.find(place, steps).is_some() {
        return Ok(false);
    }
    tree.insert(place, Span::Range { from, to });
    Ok(true)
}

/// The first overlap of a span that overlaps one of 200 at most, in 32 steps at most.
fn first_of_one<L: Ledger>(tree: &SpanTree, asked: &Span, steps: &mut Steps<L>) -> Option<u64>
    requires bounded { IsBounded asked.now }
    requires spans { length tree.now.spans ≤ 200 }
    requires one { overlap_count asked.now tree.now.spans ≤ 1 }
    ensures few { steps.new ≤ steps.old + 32 }
{
    tree.first_overlap_between(asked, 0, 201, steps)
}

/// The next one that is covered by a span that overlaps ten of 200 at most, in 176 steps at most.
fn next_of_ten<L: Ledger>(
    tree: &SpanTree,
    asked: &Span,
    after: u64,
    steps: &mut Steps<L>,
) -> Option<u64>
    requires bounded { IsBounded asked.now }
    requires spans { length tree.now.spans ≤ 200 }
    requires ten { overlap_count asked.now tree.now.spans ≤ 10 }
    ensures few { steps.new ≤ steps.old + 176 }
{
    tree.next_covered(asked, after, 201, steps)
}

fn kept_in_tens<L: Ledger>(alloc: Global, rt: &impl Abort, blank: Blank) -> Result<(), NoMemory>
    requires name { blank.name ≡ L.name }
    requires parts { blank.parts ≡ L.parts }
    requires some { 0 < L.parts }
{
    let mut steps = Steps::<L>::new(blank);
    let mut tree = SpanTree::new(alloc);
    for i in 0..200u64 {
        let is_new = keep(&mut tree, i + 1, 10 * i, 10 * i + 5, &mut steps)?;
        assert!(rt; is_new);
    }
    let asked = Span::Range {
        from: 1000,
        to: 1005,
    };
    assert_eq!(rt; first_of_one(&tree, &asked, &mut steps), Some(101));
    let wide = Span::Range { from: 0, to: 100 };
    assert_eq!(rt; next_of_ten(&tree, &wide, 0, &mut steps), Some(1));
    assert_eq!(rt; next_of_ten(&tree, &wide, 10, &mut steps), None);
    assert_eq!(rt; tree.find(101, &mut steps), Some(asked));
    assert!(rt; tree.remove(101));
    assert!(rt; !tree.remove(101));
    assert_eq!(rt;
        tree.first_overlap_between(&asked, 0, 201, &mut steps),
        None
    );
    assert_eq!(rt; tree.next_covered(&NOTHING, 0, 201, &mut steps), None);
    Ok(())
}

#[test]
fn two_hundred_spans(rt: HostRuntime) -> Result<(), Fail> {
    kept_in_tens::<Brand>(rt.alloc(), &rt, Blank::new(1))?;
    Ok(())
}

/// The smallest place between the two whose span the asked one overlaps, or covers.
fn scan(spans: &[(u64, Span)], asked: &Span, after: u64, before: u64, cover: bool) -> Option<u64> {
    let mut least = None;
    for (place, span) in spans {
        let related = if cover {
            covers(asked, span)
        } else {
            overlaps(asked, span)
        };
        if related && after < *place && *place < before {
            least = match least {
                Some(found) if found < *place => Some(found),
                _ => Some(*place),
            };
        }
    }
    least
}

fn drawn(state: u64) -> u64 {
    state
        .wrapping_mul(6_364_136_223_846_793_005)
        .wrapping_add(1_442_695_040_888_963_407)
}

fn drawn_calls<L: Ledger>(alloc: Global, rt: &impl Abort, blank: Blank) -> Result<(), NoMemory>
    requires name { blank.name ≡ L.name }
    requires parts { blank.parts ≡ L.parts }
    requires some { 0 < L.parts }
{
    let mut steps = Steps::<L>::new(blank);
    let mut tree = SpanTree::new(alloc);
    let mut spans: Vec<(u64, Span)> = Vec::new(alloc);
    let mut state = 7u64;
    for _ in 0..3000u64 {
        state = drawn(state);
        let place = (state >> 33) % 150;
        let from = (state >> 41) % 400;
        let to = from + 1 + (state >> 50) % 60;
        let asked = Span::Range { from, to };
        if (state >> 20) % 3 == 0 {
            let was_kept = spans.iter().any(|kept| kept.0 == place);
            spans.retain(|kept| kept.0 != place);
            assert_eq!(rt; tree.remove(place), was_kept);
        } else if keep(&mut tree, place, from, to, &mut steps)? {
            spans.push((place, asked))?;
        }
        let overlap = tree.first_overlap_between(&asked, from, place, &mut steps);
        assert_eq!(rt; overlap, scan(&spans, &asked, from, place, false));
        let covered = tree.next_covered(&asked, 3, 120, &mut steps);
        assert_eq!(rt; covered, scan(&spans, &asked, 3, 120, true));
    }
    Ok(())
}

#[test]
fn as_a_plain_list(rt: HostRuntime) -> Result<(), Fail> {
    drawn_calls::<Brand>(rt.alloc(), &rt, Blank::new(1))?;
    Ok(())
}
