//! Paths.

ghost use Rattle.std.specs.Prelude.{◌≡◌};
ghost use Rattle.cfs_words.specs.Reading.{Gives, path_of};

use crate::refusal::WordRefusal;
use cfs_dir::{Path, PathRefusal};
use std::alloc::Global;

/// The path that the word spells: `/`, or one to 64 times `/` and a name of 1 to 200 letters,
/// digits, `.`, `_` and `-`.
pub(crate) fn path_in(alloc: Global, word: &[u8]) -> Result<Path, WordRefusal>
    ensures { Gives (λ path. path) result (path_of word.now) }
{
    match Path::parse(alloc, word) {
        Ok(path) => Ok(path),
        Err(PathRefusal::Malformed) => Err(WordRefusal::Outside),
        Err(PathRefusal::NoMemory) => Err(WordRefusal::NoMemory),
    }
}
