//! A state is taken apart.

ghost use Rattle.std.specs.Prelude.{◌≡◌, map};
ghost use Rattle.std.specs.Option.{option_map};
ghost use Rattle.cfs_inode.specs.View.{held_of, seens_of, state_view, told_cell, told_doubt};
ghost use Rattle.cfs_inode.specs.View.{told_entry};

use crate::state::{InodeState, State};
use cfs_block::Block;
use cfs_pmem::Region;
use cfs_slot::{Doubt, Live};
use cfs_tracker::Parts;

impl<R: Region + Drop, B: Block + Drop> InodeState<R, B> {
    /// The region of the size word; and the slots of what is pending and in doubt, and of each
    /// block of the file, by its number, what stands for it.
    pub fn into_parts(self) -> (R, Parts<Live<R>, Doubt<R>, B>)
        ensures size { R.seen result.0 ≡ (state_view R.seen B.seen self).size }
        ensures entries { map (told_entry (held_of R.seen)) result.1.entries.items ≡
            (state_view R.seen B.seen self).tracker.entries }
        ensures doubt { option_map (told_doubt (seens_of R.seen)) result.1.doubt ≡
            (state_view R.seen B.seen self).tracker.doubt }
        ensures cells { map (told_cell B.seen) result.1.cells.items ≡
            (state_view R.seen B.seen self).tracker.cells }
    {
        let State { size, tracker, .. } = self;
        (size, tracker.into_parts())
    }
}
