//! A block in a job's hands.

/// The block of the medium that is tagged for a block of the file, in a job's hands.
#[derive(Debug, Drop)]
pub struct Tile<B> {
    /// The number of the block in the file.
    pub block: u64,
    /// The block of the medium.
    pub home: B,
}
