//! A change that is admitted and not closed yet.

use crate::Doing;
use cfs_file::Span;

/// A change that is admitted and not closed yet.
#[derive(Debug, Drop)]
pub struct Pending<S> {
    /// Its place in the log, from 1.
    pub place: u64,
    /// The grant that it was admitted under.
    pub grant: u64,
    /// Its positions, on the file after the entries before it.
    pub span: Span,
    /// Its bytes stand and the size is set for it, though its gate may still be open.
    pub applied: bool,
    /// Its blocks up to this one are done.
    pub done: Option<u64>,
    /// What is being done with it.
    pub doing: Doing<S>,
    /// How often other work was chosen while it stood ready, since it was admitted or last
    /// dispatched; 2^64 - 1 stands for that many and more.
    pub passed: u64,
}
