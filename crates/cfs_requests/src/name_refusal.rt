//! Why a request on names was refused.

use cfs_dir::Posix;
use thiserror::Error;

/// Why a request on names was refused.
#[derive(Clone, Copy, Debug, PartialEq, Eq, Error)]
pub enum NameRefusal {
    /// By its words alone, whatever the tree is.
    #[error("{0}")]
    Words(Posix),
    /// By the tree as it stands.
    #[error("{0}")]
    Tree(Posix),
}
