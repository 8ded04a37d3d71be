//! Blocks are tagged.

ghost use Rattle.std.specs.Prelude.{◌≡◌, ◌<◌, ◌↔◌, IsTrue, true};
ghost use Rattle.cfs_file.specs.declared.sizes.TheConstants.{FILE_BLOCKS};
ghost use Rattle.cfs_core.specs.declared.event.Event.TheVariants as events;
ghost use Rattle.cfs_core.specs.declared.inode_core.Core.{Core};
ghost use Rattle.cfs_core.specs.May.{may};
ghost use Rattle.cfs_core.specs.After.{after};
ghost use Rattle.cfs_tracker.specs.Cells.{cell_at, held_in, is_bare, moving, tagged_cell, with_cell};
ghost use Rattle.cfs_tracker.specs.Follows.{Follows};
ghost use Rattle.cfs_tracker.specs.View.{KeepsRoom, view_of};

use crate::{Cell, Tracker};
use std::mem;

fn tagged_cell<B>(home: B, kept: bool) -> Cell<B>
    ensures { result ≡ tagged_cell home kept }
{
    if kept {
        Cell::Home(home)
    } else {
        Cell::Unsure(home)
    }
}

fn take_from<B: Drop>(cell: &mut Cell<B>) -> Option<B>
    ensures block { result ≡ held_in cell.old }
    ensures cell { cell.new ≡ moving cell.old }
{
    let is_sure = matches!(cell, Cell::Home(_));
    match cell {
        Cell::Home(_) | Cell::Unsure(_) => {}
        Cell::Hole | Cell::Lent(_) | Cell::Moving(_) => return None,
    }
    match mem::replace(cell, Cell::Moving(is_sure)) {
        Cell::Home(home) | Cell::Unsure(home) => Some(home),
        Cell::Hole | Cell::Lent(_) | Cell::Moving(_) => unreachable!(),
    }
}

impl<S: Drop, D: Drop, B: Drop> Tracker<S, D, B> {
    /// Takes the block out that is kept for a block of the file, to be tagged again, where its tag
    /// is unsure, or given up; none exactly where none is kept. `tagged` or `trimmed` comes next.
    /// Walks nothing.
    pub fn take_block(&mut self, block: u64) -> Option<B>
        requires { block < FILE_BLOCKS }
        ensures block { result ≡ held_in (cell_at (view_of self.old).cells block) }
        ensures view { view_of self.new ≡
            with_cell block (moving (cell_at (view_of self.old).cells block)) (view_of self.old) }
        ensures room { KeepsRoom self.old self.new }
        ensures follows { (core : Core) → Follows (view_of self.old) core →
            Follows (view_of self.new) core }
    {
        take_from(&mut self.cells[block as usize])
    }

    /// Whether a zero block may be tagged for a block of the file: no block is tagged for it in
    /// every image, and none is kept here. Walks nothing.
    pub fn is_bare(&self, block: u64) -> bool
        ensures { IsTrue result ↔
            ((block < FILE_BLOCKS) × (is_bare (cell_at (view_of self.now).cells block) ≡ true)) }
    {
        match self.cells.get(block as usize) {
            Some(Cell::Hole | Cell::Moving(false)) => true,
            Some(Cell::Home(_) | Cell::Unsure(_) | Cell::Lent(_) | Cell::Moving(true)) | None =>
                false,
        }
    }

    /// A zero block was tagged for a block of the file, or, where that was not kept, its tag
    /// failed. Walks nothing.
    pub fn tagged(&mut self, block: u64, home: B, kept: bool)
        requires block { block < FILE_BLOCKS }
        requires bare { is_bare (cell_at (view_of self.old).cells block) ≡ true }
        ensures view { view_of self.new ≡
            with_cell block (tagged_cell home kept) (view_of self.old) }
        ensures room { KeepsRoom self.old self.new }
        ensures follows { (core : Core) → Follows (view_of self.old) core →
            (may core (events.Tag block kept) ≡ true)
            × Follows (view_of self.new) (after core (events.Tag block kept)) }
    {
        self.cells[block as usize] = tagged_cell(home, kept);
    }
}
