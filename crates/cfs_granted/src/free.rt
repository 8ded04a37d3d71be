//! A record that is free.

ghost use Rattle.std.specs.Prelude.{◌≡◌, length};
ghost use Rattle.cfs_pmem.specs.Images.{IsSure, words_of};
ghost use Rattle.cfs_active.specs.Memory.{words_seen};
ghost use Rattle.cfs_granted.specs.Clean.{IsClean};

use cfs_pmem::MemRegion;

/// A record without a file, with the region of its size word, which is 0 in every image.
#[derive(Drop)]
pub struct Free {
    /// The greatest inode number that it has had, 0 where it had none.
    pub(crate) latest: u64,
    pub(crate) size: MemRegion,
    ghost clean: { IsClean (words_seen size) },
}
