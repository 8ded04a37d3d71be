//! The positions of a span, and its part in each block.

ghost use Rattle.std.specs.Prelude.{◌≡◌, ◌<◌, take, drop, replicate, get_or, IfOk};
ghost use Rattle.cfs_core.specs.Words.{block_span, byte_at, end_in, end_needed, end_of, first_needed, payload_of, piece_in, sized, start_in, start_of};
ghost use Rattle.cfs_file.specs.declared.sizes.TheConstants.{FILE_BLOCKS};

use cfs_file::{BLOCK_LEN, Bytes, FILE_BLOCKS, LONGEST_FILE, NoMemory, Request, Span};
use std::alloc::Global;

/// The bytes of a write or an append.
pub(crate) fn payload(request: &Request) -> &[u8]
    ensures { result.now ≡ payload_of request.now }
{
    match request {
        Request::Write { bytes, .. } | Request::Append { bytes } => bytes.as_slice(),
        Request::Truncate { .. } | Request::Read { .. } | Request::Sync => &[],
    }
}

pub(crate) fn start_of(span: Span) -> u64
    ensures { result ≡ start_of span }
{
    match span {
        Span::Nothing => 0,
        Span::Range { from, .. } | Span::From { from } => from,
    }
}

pub(crate) fn end_of(span: Span) -> u64
    ensures { result ≡ end_of span }
{
    match span {
        Span::Nothing => 0,
        Span::Range { to, .. } => to,
        Span::From { .. } => LONGEST_FILE,
    }
}

pub(crate) fn first_needed(span: Span) -> u64
    ensures { result ≡ first_needed span }
{
    match span {
        Span::Range { from, .. } => from / BLOCK_LEN,
        Span::Nothing | Span::From { .. } => 0,
    }
}

pub(crate) fn end_needed(span: Span) -> u64
    ensures { result ≡ end_needed span }
{
    match span {
        Span::Range { to, .. } => to.saturating_sub(1) / BLOCK_LEN + 1,
        Span::Nothing | Span::From { .. } => 0,
    }
}

/// The positions of a block.
pub(crate) fn block_span(block: u64) -> Span
    requires { block < FILE_BLOCKS }
    ensures { result ≡ block_span block }
{
    Span::Range {
        from: BLOCK_LEN * block,
        to: BLOCK_LEN * block + BLOCK_LEN,
    }
}

pub(crate) fn start_in(span: Span, block: u64) -> u64
    requires { block < FILE_BLOCKS }
    ensures { result ≡ start_in span block }
{
    match span {
        Span::Nothing => BLOCK_LEN * block,
        Span::Range { from, .. } | Span::From { from } => from.max(BLOCK_LEN * block),
    }
}

pub(crate) fn end_in(span: Span, block: u64) -> u64
    requires { block < FILE_BLOCKS }
    ensures { result ≡ end_in span block }
{
    match span {
        Span::Nothing => BLOCK_LEN * block,
        Span::Range { to, .. } => to.min(BLOCK_LEN * block + BLOCK_LEN),
        Span::From { .. } => BLOCK_LEN * block + BLOCK_LEN,
    }
}

/// The byte that an entry leaves at a position of its span.
pub(crate) fn byte_at(bytes: &[u8], span: Span, position: u64) -> u8
    ensures { result ≡ byte_at bytes.now span position }
{
    match span {
        Span::Range { from, .. } => byte_or_zero(bytes, position.saturating_sub(from)),
        Span::Nothing | Span::From { .. } => 0,
    }
}

/// The byte at an index, or 0 past the end.
pub(crate) fn byte_or_zero(bytes: &[u8], at: u64) -> u8
    ensures { result ≡ get_or bytes.now at 0 }
{
    match bytes.get(at as usize) {
        Some(byte) => *byte,
        None => 0,
    }
}

/// At most `count` bytes from `from` on.
pub(crate) fn part_of(bytes: &[u8], from: u64, count: u64) -> &[u8]
    ensures { result.now ≡ take count (drop from bytes.now) }
{
    let rest = &bytes[bytes.len().min(from as usize)..];
    &rest[..rest.len().min(count as usize)]
}

/// The bytes that an entry leaves in a block.
pub(crate) fn piece_in(
    alloc: Global,
    bytes: &[u8],
    span: Span,
    block: u64,
) -> Result<Bytes, NoMemory>
    requires { block < FILE_BLOCKS }
    ensures { IfOk result (λ piece. piece ≡ piece_in bytes.now span block) }
{
    let start = start_in(span, block);
    let count = end_in(span, block).saturating_sub(start);
    match span {
        Span::Nothing => Ok(Bytes::new(alloc)),
        Span::Range { from, .. } => {
            Bytes::from_slice(alloc, part_of(bytes, start.saturating_sub(from), count))
        }
        Span::From { .. } => zeros(alloc, count),
    }
}

/// So many zero bytes.
fn zeros(alloc: Global, count: u64) -> Result<Bytes, NoMemory>
    ensures { IfOk result (λ bytes. bytes ≡ replicate count 0) }
{
    let mut bytes = Bytes::new(alloc);
    bytes.resize(count)?;
    Ok(bytes)
}

/// The size of the file after an entry, by its span.
pub(crate) fn sized(size: u64, span: Span) -> u64
    ensures { result ≡ sized size span }
{
    match span {
        Span::Nothing => size,
        Span::Range { to, .. } => size.max(to),
        Span::From { from } => from,
    }
}
