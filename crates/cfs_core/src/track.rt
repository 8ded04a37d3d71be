//! What is kept of a logged request beside the request.

use crate::{Flag, State};
use cfs_file::Span;

/// What is kept of a logged request beside the request.
#[derive(Clone, Copy, Debug, PartialEq, Eq)]
pub struct Track {
    /// The grant that it was admitted under; 0 for a read or a sync.
    pub grant: u64,
    /// Its positions, on the file after the entries before it.
    pub span: Span,
    /// How far it has come.
    pub state: State,
    /// Its bytes stand and the size is set for it, though its gate may still be open.
    pub applied: bool,
    /// Its blocks up to this one are done.
    pub done: Option<u64>,
    /// The gate of its slot.
    pub gate: Flag,
    /// The mark of its slot.
    pub mark: Flag,
}
