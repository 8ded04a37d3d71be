//! Why a script is not read.

ghost use Rattle.std.specs.Prelude.{◌≡◌};
ghost use Rattle.cfs_io.specs.declared.read_refusal.ReadRefusal.TheVariants as refusals;

use crate::IoFault;
use std::alloc::{AllocError, AllocFailed};
use std::fmt;

/// Why a script is not read.
#[derive(Clone, Copy, Debug, PartialEq, Eq)]
pub enum ReadRefusal {
    /// More bytes came than a script may have.
    TooLong,
    /// The source failed, and its count of faults rose.
    Failed,
    /// Want of memory.
    NoMemory,
}

impl fmt::Display for ReadRefusal {
    fn fmt<W: fmt::Write>(&self, f: &mut fmt::Formatter<W>) -> fmt::Result {
        match self {
            ReadRefusal::TooLong => write!(f, "the script is too long"),
            ReadRefusal::Failed => write!(f, "the script could not be read"),
            ReadRefusal::NoMemory => write!(f, "out of memory"),
        }
    }
}

impl std::error::Error for ReadRefusal {}

impl From<IoFault> for ReadRefusal {
    ghost from_gives = { λ _ refusal. refusal ≡ refusals.Failed };

    fn from(_: IoFault) -> ReadRefusal {
        ReadRefusal::Failed
    }
}

impl From<cfs_file::NoMemory> for ReadRefusal {
    ghost from_gives = { λ _ refusal. refusal ≡ refusals.NoMemory };

    fn from(_: cfs_file::NoMemory) -> ReadRefusal {
        ReadRefusal::NoMemory
    }
}

impl From<AllocError> for ReadRefusal {
    ghost from_gives = { λ _ refusal. refusal ≡ refusals.NoMemory };

    fn from(_: AllocError) -> ReadRefusal {
        ReadRefusal::NoMemory
    }
}

impl<T: Drop> From<AllocFailed<T>> for ReadRefusal {
    ghost from_gives = { λ _ refusal. refusal ≡ refusals.NoMemory };

    fn from(_: AllocFailed<T>) -> ReadRefusal {
        ReadRefusal::NoMemory
    }
}
