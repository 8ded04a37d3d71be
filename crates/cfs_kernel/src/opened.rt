//! What an open gives.

use cfs_grants::Grant;
use cfs_pmem::Region;
use cfs_queue::Queue;

/// What an open gives.
#[derive(Drop)]
pub struct Opened<R: Region> {
    /// The place of the request among those on names, from 1.
    pub place: u64,
    /// The grant.
    pub grant: Grant,
    /// The record of the file.
    pub rec: u32,
    /// The queue of the grant, all whose slots are free.
    pub queue: Queue<R>,
}
