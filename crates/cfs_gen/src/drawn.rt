//! What a request draws.

/// What a request draws.
#[derive(Clone, Copy, Debug, PartialEq, Eq)]
pub(crate) struct Drawn {
    /// The descriptor, 0 or 1.
    pub(crate) fd: u32,
    /// The offset in the file, in bytes: below 61,440.
    pub(crate) offset: u64,
    /// The length, in bytes: 1 to 4096.
    pub(crate) length: u64,
    /// Whether a turn of a worker follows.
    pub(crate) has_turn: bool,
}
