//! A tracker is emptied, whose file is no longer in the tree.

ghost use Rattle.std.specs.Prelude.{◌≡◌, ◌<◌, false, IfSome, None};
ghost use Rattle.std.specs.List.{list_any};
ghost use Rattle.cfs_file.specs.declared.sizes.TheConstants.{FILE_BLOCKS};
ghost use Rattle.cfs_tracker.specs.Cells.{with_cell};
ghost use Rattle.cfs_tracker.specs.New.{stored_view};
ghost use Rattle.cfs_tracker.specs.Purge.{is_away, is_in_use, next_kept, zero_unsure};
ghost use Rattle.cfs_tracker.specs.Trim.{left_cell};
ghost use Rattle.cfs_tracker.specs.View.{KeepsRoom, view_of};

use crate::trim::{is_held, left_cell};
use crate::{Cell, Tracker};

fn is_away<B>(cell: &Cell<B>) -> bool
    ensures { result ≡ is_away cell.now }
{
    matches!(cell, Cell::Lent(_) | Cell::Moving(_))
}

fn has_away<B>(cells: &[Cell<B>]) -> bool
    ensures { result ≡ list_any (λ cell. is_away cell) cells.now }
{
    cells.iter().any(|cell| is_away(cell))
}

impl<S: Drop, D: Drop, B: Drop> Tracker<S, D, B> {
    /// Whether a change is pending, a read is not answered, a request is in doubt, or a block is
    /// with a job or in the caller's hands. Walks the blocks of the file to the first such one.
    pub fn is_in_use(&self) -> bool
        ensures { result ≡ is_in_use (view_of self.now) }
    {
        !self.entries.is_empty()
            || !self.reads.is_empty()
            || self.doubt.is_some()
            || has_away(self.cells.as_slice())
    }

    /// The lowest block of the file that is kept here. Walks the blocks to the answer.
    pub fn next_kept(&self) -> Option<u64>
        ensures block { result ≡ next_kept (view_of self.now) }
        ensures file { IfSome result (λ block. block < FILE_BLOCKS) }
    {
        (0..self.cells.len() as u64).find(|block| is_held(self.cells.as_slice(), *block))
    }

    /// The block that `take_block` gave is given up; or, where its tag could not be taken away, it
    /// is left with a tag that is unsure. Of a file whose core has ended: it is no event. Walks
    /// nothing.
    pub fn untagged(&mut self, block: u64, left: Option<B>)
        requires { block < FILE_BLOCKS }
        ensures view { view_of self.new ≡ with_cell block (left_cell left) (view_of self.old) }
        ensures room { KeepsRoom self.old self.new }
    {
        self.cells[block as usize] = left_cell(left);
    }

    /// The size word was written to be 0, and may be that or what it was. Walks nothing.
    pub fn zero_unsure(&mut self)
        ensures view { view_of self.new ≡ zero_unsure (view_of self.old) }
        ensures room { KeepsRoom self.old self.new }
    {
        self.stored = 0;
        self.is_sure = false;
    }

    /// The size word is 0 in every image, and nothing is left of the file: this is a tracker of an
    /// empty file without blocks, as `new` makes. Walks nothing.
    pub fn emptied(&mut self)
        requires unused { is_in_use (view_of self.old) ≡ false }
        requires bare { next_kept (view_of self.old) ≡ None }
        ensures view { view_of self.new ≡ stored_view 0 }
        ensures room { KeepsRoom self.old self.new }
    {
        self.count = 0;
        self.long = 0;
        self.stored = 0;
        self.is_sure = true;
    }
}
