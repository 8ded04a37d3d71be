//! What an open does.

use cfs_dir::Node;

/// What an open does: it finds a file, or makes one.
#[derive(Clone, Copy, Debug, PartialEq, Eq)]
pub enum Opening {
    /// The file that is there.
    Found(Node),
    /// The file that is made.
    Made(Node),
}
