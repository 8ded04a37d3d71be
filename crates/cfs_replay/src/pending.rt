//! A live entry that is to be brought home.

/// Where a live entry stands, and whose it is.
#[derive(Clone, Copy, Debug, PartialEq, Eq)]
pub struct Pending {
    /// The number of its file's record, 0 to 255.
    pub node: usize,
    /// The inode number of its file.
    pub ino: u64,
    /// The place of its slot among all slots, of a long write that of its head.
    pub slot: usize,
}
