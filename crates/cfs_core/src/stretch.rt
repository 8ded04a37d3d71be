//! Bytes that no flush has made sure of.

/// Positions of the file, in one block, that were written since the block's last flush: a crash may
/// leave any bytes there.
#[derive(Clone, Copy, Debug, PartialEq, Eq)]
pub struct Stretch {
    /// The first position.
    pub from: u64,
    /// The position behind the last.
    pub to: u64,
}
