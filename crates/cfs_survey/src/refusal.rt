//! Why a store was not read.
ghost use Rattle.std.specs.Prelude.{◌≡◌};
ghost use Rattle.cfs_survey.specs.declared.refusal.SurveyRefusal.TheVariants as refusals;

use crate::fault::Fault;
use std::alloc::{AllocError, AllocFailed};
use thiserror::Error;

/// Why the words of a store were not read.
#[derive(Clone, Copy, Debug, PartialEq, Eq, Error)]
pub enum SurveyRefusal {
    /// A check failed.
    #[error("{0}")]
    Damaged(Fault),
    /// There was no memory.
    #[error("out of memory")]
    NoMemory,
}

impl From<Fault> for SurveyRefusal {
    ghost from_gives = { λ fault refusal. refusal ≡ refusals.Damaged fault };

    fn from(fault: Fault) -> SurveyRefusal {
        SurveyRefusal::Damaged(fault)
    }
}

impl From<AllocError> for SurveyRefusal {
    ghost from_gives = { λ _ refusal. refusal ≡ refusals.NoMemory };

    fn from(_: AllocError) -> SurveyRefusal {
        SurveyRefusal::NoMemory
    }
}

impl<T: Drop> From<AllocFailed<T>> for SurveyRefusal {
    ghost from_gives = { λ _ refusal. refusal ≡ refusals.NoMemory };

    fn from(_: AllocFailed<T>) -> SurveyRefusal {
        SurveyRefusal::NoMemory
    }
}
