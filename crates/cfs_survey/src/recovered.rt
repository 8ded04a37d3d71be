use cfs_dir::{Change, Node};

/// The tree that a table and a journal tell.
#[derive(Debug, Drop)]
pub struct Recovered {
    /// By ascending record.
    pub nodes: Vec<Node>,
    /// The next inode number.
    pub next: u64,
    /// The changes of the journal's records that were reached, in order.
    pub changes: Vec<Change>,
    /// The number of the last record of the journal that was reached, or that of the table.
    pub last: u64,
}
