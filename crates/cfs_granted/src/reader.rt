//! Whose read is pending.

/// A pending read or sync, and the grant that it was asked under.
#[derive(Clone, Copy, Debug, PartialEq, Eq)]
pub struct Reader {
    /// The place of the read.
    pub place: u64,
    /// The number of the grant.
    pub grant: u64,
}
