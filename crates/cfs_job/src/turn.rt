//! Which step of a job comes next.

/// The next device step of a job.
#[derive(Clone, Copy, Debug, PartialEq, Eq)]
pub enum Turn {
    /// The first block's part of the request is written.
    WriteFirst,
    /// The second block's part is written.
    WriteSecond,
    /// The first block is flushed.
    FlushFirst,
    /// The second block is flushed.
    FlushSecond,
    /// No step is left.
    Nothing,
}
