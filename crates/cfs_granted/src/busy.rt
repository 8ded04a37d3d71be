//! Why a grant is not attached.

/// Why a grant is not attached. All is as it was.
#[derive(Clone, Copy, Debug, PartialEq, Eq)]
pub enum AttachRefusal {
    /// The record is another file's, or the grant's number or queue is taken. It has this inode
    /// number, or had it last, where it is free.
    Busy { has: u64 },
    /// There is no memory for the life of a file.
    NoMemory,
}
