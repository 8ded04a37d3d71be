//! Why bytes are no image.
ghost use Rattle.std.specs.Prelude.{◌≡◌};
ghost use Rattle.cfs_image.specs.declared.refusal.ImageRefusal.TheVariants as refusals;

use cfs_file::NoMemory;
use std::alloc::{AllocError, AllocFailed};
use thiserror::Error;

/// Why no store was read of an image.
#[derive(Clone, Copy, Debug, PartialEq, Eq, Error)]
pub enum ImageRefusal {
    /// A check failed: at this offset a number was found that does not stand against this one.
    #[error("offset {offset} found {found} against {against}")]
    Damaged {
        /// In bytes, from the start of the image.
        offset: u64,
        /// The word there, or the length of the image.
        found: u64,
        /// What it should have been, or the bound that it passed.
        against: u64,
    },
    /// There was no memory for the store.
    #[error("out of memory")]
    NoMemory,
}

impl From<NoMemory> for ImageRefusal {
    ghost from_gives = { λ _ refusal. refusal ≡ refusals.NoMemory };

    fn from(_: NoMemory) -> ImageRefusal {
        ImageRefusal::NoMemory
    }
}

impl From<AllocError> for ImageRefusal {
    ghost from_gives = { λ _ refusal. refusal ≡ refusals.NoMemory };

    fn from(_: AllocError) -> ImageRefusal {
        ImageRefusal::NoMemory
    }
}

impl<T: Drop> From<AllocFailed<T>> for ImageRefusal {
    ghost from_gives = { λ _ refusal. refusal ≡ refusals.NoMemory };

    fn from(_: AllocFailed<T>) -> ImageRefusal {
        ImageRefusal::NoMemory
    }
}
