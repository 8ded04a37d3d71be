//! Why a store was not surveyed.
ghost use Rattle.std.specs.Prelude.{◌≡◌};
ghost use Rattle.cfs_store_words.specs.Failures.{of_reading, of_survey};

use crate::read_failed::ReadFailed;
use cfs_pmem::DeviceFault;
use cfs_survey::{Fault, SurveyRefusal};
use thiserror::Error;

/// Why a store was not surveyed.
#[derive(Clone, Copy, Debug, PartialEq, Eq, Error)]
pub enum SurveyFailed {
    /// A device failed.
    #[error("{0}")]
    Failed(DeviceFault),
    /// A check of the words failed.
    #[error("{0}")]
    Damaged(Fault),
    /// There was no memory.
    #[error("out of memory")]
    NoMemory,
}

impl From<ReadFailed> for SurveyFailed {
    ghost from_gives = { λ error failed. failed ≡ of_reading error };

    fn from(error: ReadFailed) -> SurveyFailed {
        match error {
            ReadFailed::Failed(fault) => SurveyFailed::Failed(fault),
            ReadFailed::NoMemory => SurveyFailed::NoMemory,
        }
    }
}

impl From<SurveyRefusal> for SurveyFailed {
    ghost from_gives = { λ refusal failed. failed ≡ of_survey refusal };

    fn from(refusal: SurveyRefusal) -> SurveyFailed {
        match refusal {
            SurveyRefusal::Damaged(fault) => SurveyFailed::Damaged(fault),
            SurveyRefusal::NoMemory => SurveyFailed::NoMemory,
        }
    }
}
