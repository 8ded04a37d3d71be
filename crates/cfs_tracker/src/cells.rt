//! The blocks of the file, one by one.

ghost use Rattle.std.specs.Prelude.{◌≡◌, find, not};
ghost use Rattle.cfs_core.specs.Words.{blocks_needed};
ghost use Rattle.cfs_tracker.specs.Admit.{bare_needed, first_unmapped, is_mapped};
ghost use Rattle.cfs_tracker.specs.Cells.{cell_at, is_bare};

use crate::Cell;
use crate::spans::{end_needed, first_needed};
use cfs_file::Span;

/// A block of the medium is tagged for it in every image.
pub(crate) fn is_mapped<B>(cells: &[Cell<B>], block: u64) -> bool
    ensures { result ≡ is_mapped (cell_at cells.now block) }
{
    match cells.get(block as usize) {
        Some(Cell::Home(_) | Cell::Lent(_)) => true,
        Some(Cell::Moving(is_sure)) => *is_sure,
        Some(Cell::Hole | Cell::Unsure(_)) | None => false,
    }
}

/// The first block that a write of the span needs and that is not mapped.
pub(crate) fn first_unmapped<B>(cells: &[Cell<B>], span: Span) -> Option<u64>
    ensures { result ≡ first_unmapped cells.now span }
{
    (first_needed(span)..end_needed(span)).find(|block| !is_mapped(cells, *block))
}

/// No block is kept for it, and none is tagged for it in every image.
fn is_bare<B>(cells: &[Cell<B>], block: u64) -> bool
    ensures { result ≡ is_bare (cell_at cells.now block) }
{
    match cells.get(block as usize) {
        Some(Cell::Home(_) | Cell::Unsure(_) | Cell::Lent(_)) => false,
        Some(Cell::Moving(is_sure)) => !*is_sure,
        Some(Cell::Hole) | None => true,
    }
}

/// How many blocks that a write of the span needs are bare.
pub(crate) fn bare_needed<B>(cells: &[Cell<B>], span: Span) -> u64
    ensures { result ≡ bare_needed cells.now span }
{
    (first_needed(span)..end_needed(span))
        .filter(|block| is_bare(cells, *block))
        .count() as u64
}
