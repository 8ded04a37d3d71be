//! A live entry, as a mount takes it up.

/// Where a live entry stands, and what it makes of the size of its file.
#[derive(Clone, Copy, Debug, PartialEq, Eq)]
pub struct Entry {
    /// The place of its slot among all slots.
    pub slot: usize,
    /// The number of its file's record, 0 to 255.
    pub node: usize,
    /// The size word of the file, in bytes, as it stands.
    pub size: u64,
    /// The size word behind the entry.
    pub size_after: u64,
}
