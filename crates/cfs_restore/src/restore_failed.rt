//! Why a store was not brought home.
ghost use Rattle.std.specs.Prelude.{◌≡◌};
ghost use Rattle.cfs_restore.specs.Failures.{of_survey};
ghost use Rattle.cfs_restore.specs.declared.restore_failed.RestoreFailed.TheVariants as failures;

use cfs_file::NoMemory;
use cfs_pmem::DeviceFault;
use cfs_store_words::SurveyFailed;
use cfs_survey::Fault;
use std::alloc::{AllocError, AllocFailed};
use thiserror::Error;

/// Why a store was not brought home.
#[derive(Clone, Copy, Debug, PartialEq, Eq, Error)]
pub enum RestoreFailed {
    /// A device failed.
    #[error("{0}")]
    Failed(DeviceFault),
    /// A check of the words failed.
    #[error("{0}")]
    Damaged(Fault),
    /// There was no memory.
    #[error("out of memory")]
    NoMemory,
}

impl From<SurveyFailed> for RestoreFailed {
    ghost from_gives = { λ error failed. failed ≡ of_survey error };

    fn from(error: SurveyFailed) -> RestoreFailed {
        match error {
            SurveyFailed::Failed(fault) => RestoreFailed::Failed(fault),
            SurveyFailed::Damaged(fault) => RestoreFailed::Damaged(fault),
            SurveyFailed::NoMemory => RestoreFailed::NoMemory,
        }
    }
}

impl From<DeviceFault> for RestoreFailed {
    ghost from_gives = { λ fault failed. failed ≡ failures.Failed fault };

    fn from(fault: DeviceFault) -> RestoreFailed {
        RestoreFailed::Failed(fault)
    }
}

impl From<NoMemory> for RestoreFailed {
    ghost from_gives = { λ _ failed. failed ≡ failures.NoMemory };

    fn from(_: NoMemory) -> RestoreFailed {
        RestoreFailed::NoMemory
    }
}

impl From<AllocError> for RestoreFailed {
    ghost from_gives = { λ _ failed. failed ≡ failures.NoMemory };

    fn from(_: AllocError) -> RestoreFailed {
        RestoreFailed::NoMemory
    }
}

impl<T: Drop> From<AllocFailed<T>> for RestoreFailed {
    ghost from_gives = { λ _ failed. failed ≡ failures.NoMemory };

    fn from(_: AllocFailed<T>) -> RestoreFailed {
        RestoreFailed::NoMemory
    }
}
