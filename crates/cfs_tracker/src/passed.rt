//! What a walk over the entries has passed.

ghost use Rattle.std.specs.Prelude.{◌≡◌, ◌&&◌, ◌||◌, ◌≤◌, true, false};
ghost use Rattle.std.specs.List.{position};
ghost use Rattle.cfs_file.specs.declared.span.Span.{Span};
ghost use Rattle.cfs_file.specs.Span.{meets};
ghost use Rattle.cfs_tracker.specs.Passed.{has_stretch, is_before, is_joinable, joined};
ghost use Rattle.cfs_tracker.specs.Reads.{is_live_doing};

use crate::Pending;
use cfs_file::{Span, overlaps};

/// How many stretches are kept.
const STRETCHES: usize = 8;

/// What is kept of the live entries that a walk has passed: stretches of positions, each of which
/// one of them has, and a place that none of them is past. Those that overlap make one stretch;
/// where there are more stretches than fit, the rest is not kept.
#[derive(Debug, Drop)]
pub(crate) struct Passed {
    stretches: [Span; STRETCHES],
    last: u64,
}

impl Passed {
    /// Nothing was passed yet.
    pub(crate) fn new() -> Passed
        ensures { (span : Span) → has_stretch result.stretches span ≡ false }
    {
        Passed {
            stretches: [Span::Nothing; STRETCHES],
            last: 0,
        }
    }

    /// Whether a stretch is known to stand before the entry and overlaps it.
    pub(crate) fn is_before<S>(&self, entry: &Pending<S>) -> bool
        ensures { result ≡ is_before self.now entry.now }
    {
        self.last < entry.place && has_stretch(&self.stretches, &entry.span)
    }

    /// The walk passes an entry.
    pub(crate) fn pass<S>(&mut self, entry: &Pending<S>)
        ensures rises { self.old.last ≤ self.new.last }
        ensures last { is_live_doing entry.now.doing ≡ true → entry.now.place ≤ self.new.last }
        ensures stretches { (span : Span) → has_stretch self.new.stretches span ≡ true →
            (has_stretch self.old.stretches span
            || (is_live_doing entry.now.doing && meets entry.now.span span)) ≡ true }
    {
        if entry.doing.is_live() {
            self.last = self.last.max(entry.place);
            add(&mut self.stretches, entry.span);
        }
    }
}

fn has_stretch(stretches: &[Span], span: &Span) -> bool
    ensures { result ≡ has_stretch stretches.now span.now }
{
    stretches.iter().any(|stretch| overlaps(stretch, span))
}

/// Adds a stretch to the first that it overlaps, or where none is yet, if there is room.
fn add(stretches: &mut [Span], added: Span)
    ensures { (span : Span) → has_stretch stretches.new span ≡ true →
        (has_stretch stretches.old span || meets added span) ≡ true }
{
    if let Some(at) = seat(stretches, added) {
        stretches[at] = joined(stretches[at], added);
    }
}

fn seat(stretches: &[Span], added: Span) -> Option<usize>
    ensures { result ≡ position (λ s. is_joinable s added) stretches.now }
{
    stretches
        .iter()
        .position(|stretch| is_joinable(*stretch, added))
}

fn is_joinable(stretch: Span, added: Span) -> bool
    ensures { result ≡ is_joinable stretch added }
{
    matches!(stretch, Span::Nothing) || overlaps(&stretch, &added)
}

/// The stretch from the first of both to the last.
fn joined(one: Span, other: Span) -> Span
    ensures { result ≡ joined one other }
{
    match (one, other) {
        (Span::Nothing, stretch) | (stretch, Span::Nothing) => stretch,
        (
            Span::Range { from, to },
            Span::Range {
                from: start,
                to: end,
            },
        ) => Span::Range {
            from: from.min(start),
            to: to.max(end),
        },
        (Span::Range { from, .. }, Span::From { from: start })
        | (Span::From { from }, Span::Range { from: start, .. } | Span::From { from: start }) => {
            Span::From {
                from: from.min(start),
            }
        }
    }
}
