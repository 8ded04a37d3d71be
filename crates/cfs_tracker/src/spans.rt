//! The blocks that a span needs.

ghost use Rattle.std.specs.Prelude.{◌≡◌, ◌≤◌};
ghost use Rattle.cfs_core.specs.Words.{end_needed, first_needed};
ghost use Rattle.cfs_tracker.specs.Reads.{is_needed};

use cfs_file::{BLOCK_LEN, Span};

/// The first block that a write or a read of the span needs.
pub(crate) fn first_needed(span: Span) -> u64
    ensures { result ≡ first_needed span }
{
    match span {
        Span::Range { from, .. } => from / BLOCK_LEN,
        Span::Nothing | Span::From { .. } => 0,
    }
}

/// The block behind the last one that it needs.
pub(crate) fn end_needed(span: Span) -> u64
    ensures { result ≡ end_needed span }
{
    match span {
        Span::Range { to, .. } => to.saturating_sub(1) / BLOCK_LEN + 1,
        Span::Nothing | Span::From { .. } => 0,
    }
}

/// Whether it needs the block.
pub(crate) fn is_needed(span: Span, block: Option<u64>) -> bool
    ensures { result ≡ is_needed span block }
{
    match block {
        Some(block) => first_needed(span) <= block && block < end_needed(span),
        None => false,
    }
}
