//! Why a shelf gives no file.

ghost use Rattle.std.specs.Prelude.{◌≡◌};
ghost use Rattle.cfs_io.specs.declared.load_refusal.LoadRefusal.TheVariants as refusals;

use crate::IoFault;
use std::alloc::{AllocError, AllocFailed};
use std::fmt;

/// Why a load gives no file.
#[derive(Clone, Copy, Debug, PartialEq, Eq)]
pub enum LoadRefusal {
    /// The shelf has no file of that name.
    Absent,
    /// The shelf failed, and its count of failed loads rose.
    Failed,
    /// Want of memory.
    NoMemory,
}

impl fmt::Display for LoadRefusal {
    fn fmt<W: fmt::Write>(&self, f: &mut fmt::Formatter<W>) -> fmt::Result {
        match self {
            LoadRefusal::Absent => write!(f, "no such file"),
            LoadRefusal::Failed => write!(f, "the file could not be read"),
            LoadRefusal::NoMemory => write!(f, "out of memory"),
        }
    }
}

impl std::error::Error for LoadRefusal {}

impl From<IoFault> for LoadRefusal {
    ghost from_gives = { λ _ refusal. refusal ≡ refusals.Failed };

    fn from(_: IoFault) -> LoadRefusal {
        LoadRefusal::Failed
    }
}

impl From<cfs_file::NoMemory> for LoadRefusal {
    ghost from_gives = { λ _ refusal. refusal ≡ refusals.NoMemory };

    fn from(_: cfs_file::NoMemory) -> LoadRefusal {
        LoadRefusal::NoMemory
    }
}

impl From<AllocError> for LoadRefusal {
    ghost from_gives = { λ _ refusal. refusal ≡ refusals.NoMemory };

    fn from(_: AllocError) -> LoadRefusal {
        LoadRefusal::NoMemory
    }
}

impl<T: Drop> From<AllocFailed<T>> for LoadRefusal {
    ghost from_gives = { λ _ refusal. refusal ≡ refusals.NoMemory };

    fn from(_: AllocFailed<T>) -> LoadRefusal {
        LoadRefusal::NoMemory
    }
}
