//! Trackers are made.

ghost use Rattle.std.specs.Prelude.{◌≡◌, ◌<◌, IfOk, OnOk, replicate, vec_capacity, vec_len};
ghost use Rattle.cfs_file.specs.declared.sizes.TheConstants.{FILE_BLOCKS};
ghost use Rattle.cfs_core.specs.declared.inode_core.Core.{Core};
ghost use Rattle.cfs_core.specs.Fresh.{IsEmpty};
ghost use Rattle.cfs_tracker.specs.declared.cell.Cell.TheVariants as kinds;
ghost use Rattle.cfs_tracker.specs.Cells.{with_cell};
ghost use Rattle.cfs_tracker.specs.Follows.{Follows};
ghost use Rattle.cfs_tracker.specs.New.{stored_view};
ghost use Rattle.cfs_tracker.specs.View.{KeepsRoom, view_of};

use crate::{Cell, Tracker};
use cfs_file::{FILE_BLOCKS, NoMemory};
use std::alloc::Global;

/// A cell for each block of a file, all of them holes.
fn holes<B: Drop>(alloc: Global) -> Result<Vec<Cell<B>>, NoMemory>
    ensures { IfOk result (λ cells. cells.items ≡ replicate FILE_BLOCKS kinds.Hole) }
{
    let mut cells = Vec::new(alloc);
    for block in 0..FILE_BLOCKS {
        cells.push(Cell::Hole)?;
    }
    Ok(cells)
}

impl<S: Drop, D: Drop, B: Drop> Tracker<S, D, B> {
    /// A tracker of an empty file without blocks. Takes memory for a cell for each block of a file,
    /// and walks them.
    pub fn new(alloc: Global) -> Result<Tracker<S, D, B>, NoMemory>
        ensures view { IfOk result (λ tracker. view_of tracker ≡ stored_view 0) }
        ensures follows { IfOk result (λ tracker.
            (core : Core) → IsEmpty core → Follows (view_of tracker) core) }
    {
        Tracker::stored(alloc, 0)
    }

    /// A tracker of a stored file of so many bytes, whose blocks are brought in by `bring`.
    /// Takes the memory, and walks the cells, as `new` does.
    pub fn stored(alloc: Global, bytes: u64) -> Result<Tracker<S, D, B>, NoMemory>
        ensures { IfOk result (λ tracker. view_of tracker ≡ stored_view bytes) }
    {
        let cells = holes(alloc)?;
        Ok(Tracker {
            count: 0,
            long: bytes,
            stored: bytes,
            is_sure: true,
            entries: Vec::new(alloc),
            reads: Vec::new(alloc),
            cells,
            doubt: None,
        })
    }

    /// Brings in the block that is tagged for a block of the file. Walks nothing.
    pub fn bring(&mut self, block: u64, home: B)
        requires { block < FILE_BLOCKS }
        ensures view { view_of self.new ≡ with_cell block (kinds.Home home) (view_of self.old) }
        ensures room { KeepsRoom self.old self.new }
    {
        self.cells[block as usize] = Cell::Home(home);
    }

    /// Takes the memory for one change and one read more. No call but this one and those that make
    /// a tracker takes any. Without memory there is no less room than before.
    /// Where a vector is full, it is moved.
    pub fn reserve(&mut self) -> Result<(), NoMemory>
        ensures view { view_of self.new ≡ view_of self.old }
        ensures room { KeepsRoom self.old self.new }
        ensures entry_ok { OnOk result (vec_len self.new.entries < vec_capacity self.new.entries) }
        ensures read_ok { OnOk result (vec_len self.new.reads < vec_capacity self.new.reads) }
    {
        self.entries.reserve(1)?;
        self.reads.reserve(1)?;
        Ok(())
    }
}
