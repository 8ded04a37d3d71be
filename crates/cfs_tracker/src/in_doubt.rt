//! The request in doubt.

use cfs_file::Span;

/// A request whose admission failed at its gate. `D` is what holds it: the slots of a request in
/// doubt.
#[derive(Debug, Drop)]
pub struct InDoubt<D> {
    /// The place that it would have had, which is the number in its gate.
    pub place: u64,
    /// The grant that it came under.
    pub grant: u64,
    /// Its positions.
    pub span: Span,
    /// Its slots; none while they are in the caller's hands to be closed.
    pub slots: Option<D>,
}
