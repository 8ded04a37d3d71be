//! The fields of a slot, for recovery.

/// What words 0 to 5 of a slot hold. Where the gate is 0 the other fields mean nothing.
#[derive(Clone, Copy, Debug, PartialEq, Eq)]
pub struct Found {
    /// The place of the entry, or 0 where the gate is closed.
    pub gate: u64,
    /// 1 where the entry is a no-op, and else 0.
    pub mark: u64,
    /// The inode number of the file.
    pub ino: u64,
    /// The offset of a write, in bytes, or the new length of a truncate.
    pub offset: u64,
    /// 1 of a write that one slot holds, 2 of a truncate, 3 of the head of a longer write, and 4 of
    /// its tails.
    pub kind: u64,
    /// How many bytes the payload has, of a head those of the whole write.
    pub count: u64,
    /// The number of the grant.
    pub grant: u64,
    /// Of a head a bit for the number of each tail, and else 0.
    pub tails: u64,
}
