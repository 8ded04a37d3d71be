//! Blocks are lent to jobs.

ghost use Rattle.std.specs.Prelude.{◌≡◌, ◌-◌, ◌<◌, ◌≤◌, ℕ, Some, false, find, true, vec_len};
ghost use Rattle.std.specs.List.{range_with_len};
ghost use Rattle.cfs_file.specs.declared.sizes.TheConstants.{FILE_BLOCKS};
ghost use Rattle.cfs_file.specs.Span.{meets};
ghost use Rattle.cfs_core.specs.Words.{block_span};
ghost use Rattle.cfs_core.specs.Jobs.{is_above};
ghost use Rattle.cfs_tracker.specs.Dispatch.{holder, is_kept, is_still_at, is_wanted_cell, lend};
ghost use Rattle.cfs_tracker.specs.Dispatch.{next_cell, tile_at};

use crate::cells::is_mapped;
use crate::{Cell, Tile};
use cfs_file::{BLOCK_LEN, FILE_BLOCKS, Span, overlaps};
use std::mem;

/// The next block of the file that an entry of the span wants, behind those that are done. It walks
/// the blocks of the span alone.
pub(crate) fn next_cell<B>(cells: &[Cell<B>], span: &Span, done: Option<u64>) -> Option<u64>
    ensures { result ≡ next_cell cells.now span.now done }
{
    let count = cells.len() as u64;
    let low = first_block(*span).max(behind(done)).min(count);
    let high = end_block(*span).min(count);
    find_wanted(cells, span, done, low, high)
}

fn find_wanted<B>(
    cells: &[Cell<B>],
    span: &Span,
    done: Option<u64>,
    low: u64,
    high: u64,
) -> Option<u64>
    ensures { result ≡
        find (is_wanted_cell cells.now span.now done) (range_with_len low (high - low)) }
{
    (low..high).find(|block| is_wanted(cells, span, done, *block))
}

/// No block before it has a position of the span.
fn first_block(span: Span) -> u64
    ensures { (block : ℕ) → block < result → meets span (block_span block) ≡ false }
{
    match span {
        Span::Range { from, .. } | Span::From { from } => from / BLOCK_LEN,
        Span::Nothing => 0,
    }
}

/// No block of the file from it on has a position of the span.
fn end_block(span: Span) -> u64
    ensures { (block : ℕ) → result ≤ block → block < FILE_BLOCKS →
        meets span (block_span block) ≡ false }
{
    match span {
        Span::Range { to, .. } => to.saturating_sub(1) / BLOCK_LEN + 1,
        Span::From { .. } => FILE_BLOCKS,
        Span::Nothing => 0,
    }
}

/// No block before it stands behind those that are done.
fn behind(done: Option<u64>) -> u64
    ensures { (block : ℕ) → block < result → is_above done block ≡ false }
{
    match done {
        Some(last) => last.saturating_add(1),
        None => 0,
    }
}

fn is_wanted<B>(cells: &[Cell<B>], span: &Span, done: Option<u64>, block: u64) -> bool
    ensures { result ≡ is_wanted_cell cells.now span.now done block }
{
    block < FILE_BLOCKS
        && is_above(done, block)
        && is_mapped(cells, block)
        && overlaps(
            span,
            &Span::Range {
                from: BLOCK_LEN * block,
                to: BLOCK_LEN * block + BLOCK_LEN,
            },
        )
}

fn is_above(done: Option<u64>, block: u64) -> bool
    ensures { result ≡ is_above done block }
{
    match done {
        Some(last) => last < block,
        None => true,
    }
}

/// The place whose job has the block.
pub(crate) fn holder<B>(cells: &[Cell<B>], block: Option<u64>) -> Option<u64>
    ensures { result ≡ holder cells.now block }
{
    let block = block?;
    match cells.get(block as usize) {
        Some(Cell::Lent(place)) => Some(*place),
        Some(Cell::Hole | Cell::Home(_) | Cell::Unsure(_) | Cell::Moving(_)) | None => None,
    }
}

/// Lends the block that is kept for a block of the file to the job of a place.
pub(crate) fn lend<B: Drop>(
    cells: &mut Vec<Cell<B>>,
    block: Option<u64>,
    place: u64,
) -> Option<Tile<B>>
    requires { is_kept cells.old.items block ≡ true }
    ensures tile { result ≡ tile_at cells.old.items block }
    ensures items { cells.new.items ≡ lend place block cells.old.items }
    ensures long { vec_len cells.new ≡ vec_len cells.old }
{
    let block = block?;
    match mem::replace(&mut cells[block as usize], Cell::Lent(place)) {
        Cell::Home(home) => Some(Tile { block, home }),
        Cell::Hole | Cell::Unsure(_) | Cell::Lent(_) | Cell::Moving(_) => unreachable!(),
    }
}

/// The block is not in the caller's hands with its tag set.
pub(crate) fn is_still<B>(cells: &[Cell<B>], block: Option<u64>) -> bool
    ensures { result ≡ is_still_at cells.now block }
{
    let Some(block) = block else {
        return true;
    };
    match cells.get(block as usize) {
        Some(Cell::Moving(is_sure)) => !*is_sure,
        Some(Cell::Hole | Cell::Home(_) | Cell::Unsure(_) | Cell::Lent(_)) | None => true,
    }
}
