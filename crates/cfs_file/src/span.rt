//! The positions of a file that a request touches.

ghost use Rattle.std.specs.Prelude.{◌≡◌, ◌↔◌, ℕ, IsTrue};
ghost use Rattle.cfs_file.specs.Span.{Covers, EndFits, Holds, Overlap, Touches, between, meets, reaches_over, span};

use crate::Request;

/// A span of positions, in bytes from the start of the file. A span without positions is `Nothing`
/// where `span_of` makes it; the tests below take any `Range`, an empty one too.
#[derive(Clone, Copy, Debug, PartialEq, Eq)]
pub enum Span {
    /// No position.
    Nothing,
    /// The positions from `from` on, below `to`.
    Range { from: u64, to: u64 },
    /// All positions from `from` on, without end.
    From { from: u64 },
}

/// The positions that `request` touches on a file of `length` bytes: a write or append those of its
/// bytes, a truncate all from its new length on, a read those of the bytes that it gives, a sync
/// none (own). Takes no memory.
pub fn span_of(request: &Request, length: u64) -> Span
    requires { EndFits request.now length }
    ensures exact { result ≡ span request.now length }
    ensures positions { (position : ℕ) →
        Holds result position ↔ Touches request.now length position }
{
    match request {
        Request::Write { offset, bytes } => span_between(*offset, *offset + bytes.len() as u64),
        Request::Append { bytes } => span_between(length, length + bytes.len() as u64),
        Request::Truncate { length } => Span::From { from: *length },
        Request::Read { offset, count } => {
            let rest = length.saturating_sub(*offset);
            span_between(*offset, *offset + rest.min(*count))
        }
        Request::Sync => Span::Nothing,
    }
}

/// Whether some position is in both spans. Takes no memory.
pub fn overlaps(a: &Span, b: &Span) -> bool
    ensures exact { result ≡ meets a.now b.now }
    ensures positions { IsTrue result ↔ Overlap a.now b.now }
{
    test_overlap(*a, *b)
}

/// Whether `later` has all positions of `earlier`. So a write never covers a truncate. Takes no
/// memory.
pub fn covers(later: &Span, earlier: &Span) -> bool
    ensures exact { result ≡ reaches_over later.now earlier.now }
    ensures positions { IsTrue result ↔ Covers later.now earlier.now }
{
    test_cover(*later, *earlier)
}

fn span_between(from: u64, to: u64) -> Span
    ensures { result ≡ between from to }
{
    if from < to {
        Span::Range { from, to }
    } else {
        Span::Nothing
    }
}

fn test_overlap(a: Span, b: Span) -> bool
    ensures { result ≡ meets a b }
{
    match (a, b) {
        (Span::Nothing, _) | (_, Span::Nothing) => false,
        (
            Span::Range { from, to },
            Span::Range {
                from: other,
                to: end,
            },
        ) => from.max(other) < to.min(end),
        (Span::Range { from, to }, Span::From { from: other })
        | (Span::From { from: other }, Span::Range { from, to }) => from.max(other) < to,
        (Span::From { .. }, Span::From { .. }) => true,
    }
}

fn test_cover(later: Span, earlier: Span) -> bool
    ensures { result ≡ reaches_over later earlier }
{
    match (later, earlier) {
        (_, Span::Nothing) => true,
        (Span::Nothing, Span::Range { from, to }) => to <= from,
        (
            Span::Range {
                from: start,
                to: end,
            },
            Span::Range { from, to },
        ) => to <= from || (start <= from && to <= end),
        (Span::From { from: start }, Span::Range { from, to }) => to <= from || start <= from,
        (Span::From { from: start }, Span::From { from }) => start <= from,
        (Span::Nothing | Span::Range { .. }, Span::From { .. }) => false,
    }
}
