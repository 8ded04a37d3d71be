//! One thing that there is to do.

/// One thing that there is to do.
#[derive(Clone, Copy, Debug, PartialEq, Eq)]
pub struct Work {
    /// The place of the change.
    pub place: u64,
    /// It is a no-op, to be closed; else a job may take it.
    pub is_noop: bool,
    /// A later read that it overlaps waits for it, or a later sync.
    pub read_waits: bool,
    /// How often other work was chosen while the change stood ready, since it was admitted or last
    /// dispatched.
    pub passed: u64,
}
