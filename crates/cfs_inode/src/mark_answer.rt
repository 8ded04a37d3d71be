//! What the marking of a change answers.

/// What the marking of a change answers.
#[derive(Clone, Copy, Debug, Drop, PartialEq, Eq)]
pub enum MarkAnswer {
    /// It is a no-op.
    Marked,
    /// No change waits there.
    Nothing,
    /// A device fault: it waits, and its slots may be marked or not.
    Failed,
}

impl MarkAnswer {
    ghost use Rattle.std.specs.Prelude.{◌≡◌, cond};
    ghost use Rattle.cfs_inode.specs.Covering.{is_marked};

    /// How many changes became no-ops: one or none.
    pub fn count(self) -> u64
        ensures { result ≡ cond (is_marked self) 1 0 }
    {
        match self {
            MarkAnswer::Marked => 1,
            MarkAnswer::Nothing | MarkAnswer::Failed => 0,
        }
    }
}
