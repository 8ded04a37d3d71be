//! What a state tells of itself.

ghost use Rattle.std.specs.Prelude.{◌≡◌};
ghost use Rattle.cfs_inode.specs.View.{state_view};

use crate::state::InodeState;
use cfs_block::Block;
use cfs_pmem::Region;

impl<R: Region + Drop, B: Block + Drop> InodeState<R, B> {
    /// The inode number.
    pub fn ino(&self) -> u64
        ensures { result ≡ (state_view R.seen B.seen self.now).ino }
    {
        self.ino
    }
}
