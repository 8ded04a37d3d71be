/// What a store holds, as `check` counts it.
#[derive(Clone, Copy, Debug, PartialEq, Eq)]
pub struct Report {
    /// The nodes of the tree, the root among them.
    pub nodes: u64,
    /// The slots that hold a live entry of a file.
    pub live: u64,
    /// The slots that hold a no-op of a file.
    pub noop: u64,
    /// The blocks that are tagged for a file.
    pub blocks: u64,
}
