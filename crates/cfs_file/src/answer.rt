//! What a request answers.

use crate::Bytes;

/// The answer of a request that succeeded.
#[derive(Debug, Drop, Clone, PartialEq, Eq)]
pub enum Answer {
    /// A write or append: where it stands and how many bytes it has.
    Wrote { offset: u64, count: u64 },
    /// A read: the bytes.
    Got(Bytes),
    /// A truncate or a sync.
    Done,
}
