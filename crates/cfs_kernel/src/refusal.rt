//! Why a request is refused.

use cfs_dir::Posix;
use thiserror::Error;

/// Why a request on names is refused.
#[derive(Clone, Copy, Debug, PartialEq, Eq, Error)]
pub enum NsRefusal {
    /// By its words alone, whatever the tree is.
    #[error("{0}")]
    Path(Posix),
    /// By the tree, after so many requests that took a place.
    #[error("{error} after {at} requests")]
    Tree { error: Posix, at: u64 },
    /// All queues are out.
    #[error("all {queues} queues are out")]
    NoQueue { queues: u32 },
    /// All records are used.
    #[error("all {records} records are used")]
    NoRecord { records: u32 },
    /// The next inode number is the end of the inode numbers.
    #[error("no inode number from {next} on")]
    NoNumber { next: u64 },
    /// A device failed.
    #[error("device fault")]
    Failed,
    /// There is no memory, no number for a place, or no room in the checkpoint's selector for the
    /// number of a change.
    #[error("out of memory")]
    NoMemory,
}
