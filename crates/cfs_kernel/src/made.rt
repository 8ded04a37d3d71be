//! What a `mkdir` gives.

/// What a `mkdir` gives.
#[derive(Clone, Copy, Debug, PartialEq, Eq)]
pub struct Made {
    /// The place of the request among those on names, from 1.
    pub place: u64,
    /// The inode number of the directory.
    pub ino: u64,
}
