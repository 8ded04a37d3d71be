use crate::name::Name;

/// A name in a directory.
#[derive(Clone, Copy, Debug, PartialEq, Eq, Hash)]
pub(crate) struct Child {
    /// The inode number of the directory.
    pub(crate) parent: u64,
    pub(crate) name: Name,
}
