//! The inode.

use crate::medium::empty_size;
use cfs_active::ActiveInode;
use cfs_file::NoMemory;
use std::alloc::Global;

/// The number of the inode.
pub const INO: u64 = 2;

/// An empty file.
pub fn empty_file(alloc: Global) -> Result<ActiveInode, NoMemory> {
    let size = empty_size(alloc)?;
    match ActiveInode::new(alloc, INO, size) {
        Ok(active) => Ok(active),
        Err(_) => Err(NoMemory),
    }
}
