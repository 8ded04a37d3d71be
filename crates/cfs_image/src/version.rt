//! The versions of an image's layout.

ghost use Rattle.std.specs.Prelude.{◌≡◌};
ghost use Rattle.cfs_image.specs.Versions.{number_of, record_words_in};

use crate::layout::VERSION;

/// A version of the layout of an image. They differ in the words of a journal record alone, and so
/// in where all that stands behind the journal begins.
#[derive(Clone, Copy, Debug, PartialEq, Eq)]
pub enum Version {
    /// Version 1: journal records of 15 words. It is only upgraded.
    First,
    /// Version 2: journal records of 16 words. All else here speaks of it.
    Present,
}

impl Version {
    /// The number that stands in the header.
    pub fn number(self) -> u64
        ensures { result ≡ number_of self }
    {
        match self {
            Version::First => 1,
            Version::Present => VERSION,
        }
    }

    /// How many words a journal record has.
    pub fn record_words(self) -> usize
        ensures { result ≡ record_words_in self }
    {
        match self {
            Version::First => 15,
            Version::Present => 16,
        }
    }
}
