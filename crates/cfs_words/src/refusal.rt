//! Why words were not read.

ghost use Rattle.std.specs.Prelude.{◌≡◌};
ghost use Rattle.cfs_words.specs.declared.refusal.WordRefusal.TheVariants as refusals;

use std::alloc::AllocError;

/// Why words were not read.
#[derive(Clone, Copy, Debug, PartialEq, Eq)]
pub enum WordRefusal {
    /// They spell nothing of the kind.
    Outside,
    /// Want of memory.
    NoMemory,
}

impl From<cfs_file::NoMemory> for WordRefusal {
    ghost from_gives = { λ _ e. e ≡ refusals.NoMemory };

    fn from(_: cfs_file::NoMemory) -> WordRefusal {
        WordRefusal::NoMemory
    }
}

impl From<AllocError> for WordRefusal {
    ghost from_gives = { λ _ e. e ≡ refusals.NoMemory };

    fn from(_: AllocError) -> WordRefusal {
        WordRefusal::NoMemory
    }
}
