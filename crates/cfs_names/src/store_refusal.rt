//! Why a change was not stored.

use thiserror::Error;

/// Why a change of the tree was not stored.
#[derive(Clone, Copy, Debug, PartialEq, Eq, Error)]
pub enum StoreRefusal {
    /// There is no memory, or the checkpoint's selector has no room for the number of a change.
    #[error("out of memory")]
    NoMemory,
    /// A device failed.
    #[error("device fault")]
    Failed,
}
