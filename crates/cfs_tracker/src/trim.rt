//! Blocks past the stored size are given up.

ghost use Rattle.std.specs.Prelude.{◌≡◌, ◌*◌, ◌-◌, ◌<◌, ◌≤◌, ◌&&◌, ℕ, IfSome, find, is_none};
ghost use Rattle.std.specs.Prelude.{length, true};
ghost use Rattle.std.specs.List.{list_any, range_with_len};
ghost use Rattle.cfs_file.specs.declared.sizes.TheConstants.{BLOCK_LEN};
ghost use Rattle.cfs_core.specs.declared.event.Event.TheVariants as events;
ghost use Rattle.cfs_core.specs.declared.inode_core.Core.{Core};
ghost use Rattle.cfs_core.specs.May.{may};
ghost use Rattle.cfs_core.specs.After.{after};
ghost use Rattle.cfs_tracker.specs.Cells.{cell_at, with_cell};
ghost use Rattle.cfs_tracker.specs.Follows.{Follows};
ghost use Rattle.cfs_tracker.specs.Trim.{is_doubt_in, is_held, is_live_in, is_moving, is_past, left_cell, next_trim};
ghost use Rattle.cfs_tracker.specs.View.{KeepsRoom, view_of};

use crate::{Cell, InDoubt, Pending, Tracker};
use cfs_file::{BLOCK_LEN, FILE_BLOCKS, Span, overlaps};

pub(crate) fn is_held<B>(cells: &[Cell<B>], block: u64) -> bool
    ensures { result ≡ is_held (cell_at cells.now block) }
{
    match cells.get(block as usize) {
        Some(Cell::Home(_) | Cell::Unsure(_)) => true,
        Some(Cell::Hole | Cell::Lent(_) | Cell::Moving(_)) | None => false,
    }
}

fn has_live_in<S>(entries: &[Pending<S>], span: &Span) -> bool
    ensures { result ≡ list_any (is_live_in span.now) entries.now }
{
    entries.iter().any(|entry| entry.doing.is_live() && overlaps(&entry.span, span))
}

fn is_doubt_in<D>(span: &Span, doubt: &Option<InDoubt<D>>) -> bool
    ensures { result ≡ is_doubt_in span.now doubt.now }
{
    match doubt {
        Some(doubt) => overlaps(&doubt.span, span),
        None => false,
    }
}

pub(crate) fn left_cell<B>(left: Option<B>) -> Cell<B>
    ensures { result ≡ left_cell left }
{
    match left {
        Some(home) => Cell::Unsure(home),
        None => Cell::Hole,
    }
}

/// The first block that begins at or past a size in bytes, or the count where it is less.
fn first_past(size: u64, count: u64) -> u64
    ensures inside { result ≤ count }
    ensures before { (block : ℕ) → block < result → BLOCK_LEN * block < size }
{
    size.div_ceil(BLOCK_LEN).min(count)
}

impl<S: Drop, D: Drop, B: Drop> Tracker<S, D, B> {
    /// The lowest block of the file that is to be given up: its tag is set or unsure, no job has
    /// it, it begins at or past the stored size, and no live entry and no request in doubt has a
    /// position of it. None exactly where there is none.
    ///
    /// It looks at the blocks from the stored size to the answer, and for each that is held at what
    /// is pending, to the first live entry with a position of it.
    pub fn next_trim(&self) -> Option<u64>
        ensures block { result ≡ next_trim (view_of self.now) }
        ensures past { IfSome result (λ block. is_past (view_of self.now) block ≡ true) }
    {
        let count = self.cells.len() as u64;
        self.find_trim(first_past(self.stored, count), count)
    }

    fn find_trim(&self, low: u64, high: u64) -> Option<u64>
        ensures block { result ≡
            find (λ block. is_held (cell_at (view_of self.now).cells block)
            && is_past (view_of self.now) block) (range_with_len low (high - low)) }
        ensures past { IfSome result (λ block. is_past (view_of self.now) block ≡ true) }
    {
        (low..high).find(|block| is_held(self.cells.as_slice(), *block) && self.is_past(*block))
    }

    /// Whether the block is one of the file's and begins at or past the stored size, and no live
    /// entry and no request in doubt has a position of it. Walks the entries.
    pub fn is_past(&self, block: u64) -> bool
        ensures { result ≡ is_past (view_of self.now) block }
    {
        if block >= FILE_BLOCKS {
            return false;
        }
        let span = Span::Range {
            from: BLOCK_LEN * block,
            to: BLOCK_LEN * block + BLOCK_LEN,
        };
        self.stored <= BLOCK_LEN * block
            && !has_live_in(self.entries.as_slice(), &span)
            && !is_doubt_in(&span, &self.doubt)
    }

    /// The block that `take_block` gave, past the stored size, is given up; or, where its tag could
    /// not be taken away, it is left with a tag that is unsure. Walks nothing.
    pub fn trimmed(&mut self, block: u64, left: Option<B>)
        requires past { is_past (view_of self.old) block ≡ true }
        requires moving { is_moving (cell_at (view_of self.old).cells block) ≡ true }
        ensures view { view_of self.new ≡ with_cell block (left_cell left) (view_of self.old) }
        ensures room { KeepsRoom self.old self.new }
        ensures follows { (core : Core) → Follows (view_of self.old) core →
            (may core (events.Trim block (is_none left)) ≡ true)
            × Follows (view_of self.new) (after core (events.Trim block (is_none left))) }
    {
        self.cells[block as usize] = left_cell(left);
    }
}
