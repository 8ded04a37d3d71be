//! A block of a file.

/// A block of the medium, and the block of the file that it is tagged for.
#[derive(Debug, Drop)]
pub struct Mapped<B> {
    /// The number of the block in the file, from 0.
    pub at: u64,
    pub block: B,
}
