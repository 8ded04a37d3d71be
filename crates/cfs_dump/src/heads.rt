//! The first words of a slot, by name.
ghost use Rattle.std.specs.Prelude.{◌≡◌, ◌≤◌};
ghost use Rattle.cfs_slot.specs.Words.{count_of, kind_of, offset_of, tails_of};

use cfs_file::KIND_UNIT;
use cfs_slot::{LONG_WRITE, TAILS_UNIT};
use cfs_survey::HEAD_WORDS;

/// The kind of a slot's request.
pub(crate) fn kind_of(words: &[u64; HEAD_WORDS]) -> u64
    ensures { result ≡ kind_of words.now }
{
    words[4] % TAILS_UNIT / KIND_UNIT
}

/// How many bytes its payload has.
pub(crate) fn count_of(words: &[u64; HEAD_WORDS]) -> u64
    ensures count { result ≡ count_of words.now }
    ensures few { result ≤ 65536 }
{
    let count = words[4] % KIND_UNIT;
    if kind_of(words) == LONG_WRITE {
        count + 1
    } else {
        count
    }
}

/// The set of its tails.
pub(crate) fn tails_of(words: &[u64; HEAD_WORDS]) -> u64
    ensures { result ≡ tails_of words.now }
{
    words[4] / TAILS_UNIT
}

/// Its offset, or of a truncate the new length.
pub(crate) fn offset_of(words: &[u64; HEAD_WORDS]) -> u64
    ensures { result ≡ offset_of words.now }
{
    words[3]
}
