//! What a tracker tells of the file.

ghost use Rattle.std.specs.Prelude.{◌≡◌, ◌<◌, IsTrue, Some};
ghost use Rattle.cfs_file.specs.declared.sizes.TheConstants.{FILE_BLOCKS};
ghost use Rattle.cfs_tracker.specs.Cells.{cell_at};
ghost use Rattle.cfs_tracker.specs.Dispatch.{holder, is_home};
ghost use Rattle.cfs_tracker.specs.View.{view_of};

use crate::lending::holder;
use crate::{Cell, Tracker};

impl<S, D, B> Tracker<S, D, B> {
    /// The length of the file after the log, in bytes.
    pub fn length(&self) -> u64
        ensures { result ≡ (view_of self.now).long }
    {
        self.long
    }

    /// Whether the block that is tagged for a block of the file in every image is kept here.
    pub fn is_home(&self, block: u64) -> bool
        ensures home { result ≡ is_home (cell_at (view_of self.now).cells block) }
        ensures within { IsTrue result → block < FILE_BLOCKS }
    {
        match self.cells.get(block as usize) {
            Some(Cell::Home(_)) => true,
            Some(Cell::Hole | Cell::Unsure(_) | Cell::Lent(_) | Cell::Moving(_)) | None => false,
        }
    }

    /// The place of the change whose job has the block that is tagged for a block of the file.
    pub fn lender(&self, block: u64) -> Option<u64>
        ensures { result ≡ holder (view_of self.now).cells (Some block) }
    {
        holder(self.cells.as_slice(), Some(block))
    }
}
