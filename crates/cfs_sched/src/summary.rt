/// An item of work that stands ready: an entry of a file, or one that is to be skipped.
#[derive(Clone, Copy, Debug, PartialEq, Eq)]
pub struct Summary {
    /// The record of the file, below 256.
    pub rec: u32,
    /// The file's inode number.
    pub ino: u64,
    /// The entry's place in the file's order.
    pub place: u64,
    /// Whether the entry is superseded, so that it is only to be closed.
    pub noop: bool,
    /// Whether a read or a sync waits for the entry.
    pub read_waits: bool,
    /// How often other work was chosen while this stood ready.
    pub passed: u64,
}
