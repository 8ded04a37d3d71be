//! One grant.

/// What an open gave: a queue for one file.
#[derive(Clone, Copy, Debug, Default, PartialEq, Eq)]
pub struct Grant {
    /// The number of the grant, counted from 1 since the mount.
    pub number: u64,
    /// The inode number of the file.
    pub ino: u64,
    /// The number of the queue.
    pub queue: u32,
    /// The number of the caller who has it.
    pub caller: u64,
    /// Whether it was opened for reading.
    pub reads: bool,
    /// Whether it was opened for writing.
    pub writes: bool,
}
