use crate::kind::Kind;
use crate::name::Name;

/// A file or a directory, as the tree and the tables on the device keep it.
#[derive(Clone, Copy, Debug, PartialEq, Eq)]
pub struct Node {
    /// The inode number, from 1.
    pub ino: u64,
    /// The inode number of the directory that the node stands in; the root stands in itself.
    pub parent: u64,
    /// The name in that directory; the root's is empty.
    pub name: Name,
    /// Whether it is a file or a directory.
    pub kind: Kind,
    /// The file permission bits, at most 0o777.
    pub mode: u16,
    /// The owner.
    pub uid: u32,
    /// The owner's group.
    pub gid: u32,
    /// The number of the record that keeps the node, below 256.
    pub rec: u32,
}
