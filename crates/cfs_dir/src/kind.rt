ghost use Rattle.std.specs.Prelude.{◌≡◌};
ghost use Rattle.cfs_dir.specs.Namespace.{is_directory};

/// What a node of the tree is.
#[derive(Clone, Copy, Debug, PartialEq, Eq, Hash)]
pub enum Kind {
    /// A file, which has bytes.
    File,
    /// A directory, which has names.
    Directory,
}

impl Kind {
    pub fn is_directory(self) -> bool
        ensures { result ≡ is_directory self }
    {
        matches!(self, Kind::Directory)
    }
}
