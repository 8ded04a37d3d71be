//! What a crash may leave.

use crate::Items;
use cfs_file::Bytes;

/// One value of each word and byte of a core's part of the medium.
#[derive(Drop)]
pub struct Image {
    /// The size word.
    pub size: u64,
    /// Of each block of the file, whether a block of the medium is tagged for it.
    pub tags: Items<bool>,
    /// The byte at each position of the file; it counts where a block is tagged for it.
    pub bytes: Bytes,
    /// Of each logged entry, whether its gate is open.
    pub gates: Items<bool>,
    /// Of each logged entry, whether its mark is set.
    pub marks: Items<bool>,
    /// Whether the gate of the request in doubt is open.
    pub doubt: bool,
}
