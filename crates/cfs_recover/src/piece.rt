//! A part of a request.

/// A part of a request's bytes, and the range of one block that it is for.
#[derive(Clone, Copy, Debug, Default, PartialEq, Eq)]
pub struct Piece {
    /// The place of the block among all blocks.
    pub at: usize,
    /// Its first byte in the block, 0 to 4095.
    pub from: u32,
    /// Its first byte among those of the request.
    pub start: usize,
    /// The byte behind its last one.
    pub end: usize,
}
