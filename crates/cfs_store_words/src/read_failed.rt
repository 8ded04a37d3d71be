//! Why the words of a store were not read.
ghost use Rattle.std.specs.Prelude.{◌≡◌};
ghost use Rattle.cfs_store_words.specs.declared.read_failed.ReadFailed.TheVariants as failures;

use cfs_pmem::DeviceFault;
use std::alloc::{AllocError, AllocFailed};
use thiserror::Error;

/// Why the words of a store were not read.
#[derive(Clone, Copy, Debug, PartialEq, Eq, Error)]
pub enum ReadFailed {
    /// A device failed.
    #[error("{0}")]
    Failed(DeviceFault),
    /// There was no memory.
    #[error("out of memory")]
    NoMemory,
}

impl From<DeviceFault> for ReadFailed {
    ghost from_gives = { λ fault failed. failed ≡ failures.Failed fault };

    fn from(fault: DeviceFault) -> ReadFailed {
        ReadFailed::Failed(fault)
    }
}

impl From<AllocError> for ReadFailed {
    ghost from_gives = { λ _ failed. failed ≡ failures.NoMemory };

    fn from(_: AllocError) -> ReadFailed {
        ReadFailed::NoMemory
    }
}

impl<T: Drop> From<AllocFailed<T>> for ReadFailed {
    ghost from_gives = { λ _ failed. failed ≡ failures.NoMemory };

    fn from(_: AllocFailed<T>) -> ReadFailed {
        ReadFailed::NoMemory
    }
}
