//! Spans by place in a plain list, and what is asked of a list and a tree.
ghost use Rattle.std.specs.Prelude.{IfSome};
ghost use Rattle.cfs_tree.specs.Spans.{IsBounded};

use cfs_file::{Span, covers, overlaps};
use std::alloc::{AllocError, Global};

/// The next number of a plain generator of numbers.
pub fn drawn(state: u64) -> u64 {
    state
        .wrapping_mul(6_364_136_223_846_793_005)
        .wrapping_add(1_442_695_040_888_963_407)
}

/// The places 1 to `size`, in an order that jumps.
pub fn place_at(index: u32, size: u32) -> u32 {
    let jumped = 7919 * u64::from(index);
    match jumped.checked_rem(u64::from(size)) {
        Some(rest) => rest as u32 + 1,
        None => 1,
    }
}

/// A drawn span of 50 positions, among those of `size` places.
pub fn span_from(state: u64, size: u32) -> Span
    ensures { IsBounded result }
{
    let from = match (state >> 33).checked_rem(10 * u64::from(size)) {
        Some(from) => from,
        None => 0,
    };
    Span::Range {
        from,
        to: from + 50,
    }
}

/// The smallest place whose span the asked one overlaps, or covers.
fn least(spans: &[(u64, Span)], asked: &Span, cover: bool) -> Option<u64> {
    let mut least: Option<u64> = None;
    for (place, span) in spans {
        let related = if cover {
            covers(asked, span)
        } else {
            overlaps(asked, span)
        };
        if related && least.is_none_or(|found| *place < found) {
            least = Some(*place);
        }
    }
    least
}

/// Asks a list of so many spans for those that meet drawn ones, so many times.
pub fn run(alloc: Global, size: u32, count: u32, cover: bool) -> Result<u64, AllocError> {
    let mut spans: Vec<(u64, Span)> = Vec::new(alloc);
    for index in 0..size {
        let place = u64::from(place_at(index, size));
        let from = 10 * place;
        spans.push((place, Span::Range { from, to: from + 5 }))?;
    }
    let mut sum: u64 = 0;
    let mut state = 7;
    for _ in 0..count {
        state = drawn(state);
        let asked = span_from(state, size);
        sum = sum.wrapping_add(least(&spans, &asked, cover).unwrap_or(0));
    }
    Ok(sum)
}
