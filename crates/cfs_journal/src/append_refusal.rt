//! Why a change was not appended.

use thiserror::Error;

/// Why `append` did not append.
#[derive(Clone, Copy, Debug, PartialEq, Eq, Error)]
pub enum AppendRefusal {
    /// All 64 records stand.
    #[error("the journal is full")]
    Full,
    /// A device failed.
    #[error("device fault")]
    Failed,
}
