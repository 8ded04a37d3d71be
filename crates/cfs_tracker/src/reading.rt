//! A read or a sync that is not answered yet.

use cfs_file::Span;

/// A read or a sync that is not answered yet.
#[derive(Clone, Copy, Debug, PartialEq, Eq)]
pub struct Reading {
    /// Its place in the log, from 1.
    pub place: u64,
    /// Its positions, on the file after the entries before it; of a sync none.
    pub span: Span,
    /// It is a sync.
    pub is_sync: bool,
}
