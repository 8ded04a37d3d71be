/// An entry of a file that is not applied yet.
#[derive(Clone, Copy, Debug, PartialEq, Eq)]
pub struct LiveEntry {
    /// The inode number of the file.
    pub ino: u64,
    /// Its place among the entries of the file.
    pub gate: u64,
    /// The number of the slot, of a long write that of its head.
    pub slot: u32,
}
