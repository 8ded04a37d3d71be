//! The request in doubt.

use crate::Flag;
use cfs_file::{Entry, Span};

/// A request whose admission failed at its gate: it is not logged, and a crash may find its gate
/// open.
#[derive(Drop)]
pub struct Doubt {
    /// The request, with the place that it would have had, which is the number in its gate.
    pub entry: Entry,
    /// The grant that it came under.
    pub grant: u64,
    /// Its positions, on the file after the log at its admission.
    pub span: Span,
    /// The gate of its slot.
    pub gate: Flag,
}
