//! The first words of a slot, by name.
ghost use Rattle.std.specs.Prelude.{◌≡◌, ◌==◌, ◌&&◌, ◌<◌, ◌≤◌, ◌^◌};
ghost use Rattle.cfs_slot.specs.Words.{count_of, gate_of, ino_of, is_live, kind_of, tails_of};
ghost use Rattle.cfs_survey.specs.Slots.{end_of, is_entry, is_live_entry};

use crate::tags::is_file;
use cfs_dir::Node;
use cfs_file::KIND_UNIT;
use cfs_slot::{LONG_WRITE, TAILS_UNIT};

/// How many words of a slot are looked at: those before its payload.
pub const HEAD_WORDS: usize = 6;

/// The kind of a slot's request.
pub(crate) fn kind_of(words: &[u64; HEAD_WORDS]) -> u64
    ensures { result ≡ kind_of words.now }
{
    words[4] % TAILS_UNIT / KIND_UNIT
}

/// How many bytes its payload has.
pub(crate) fn count_of(words: &[u64; HEAD_WORDS]) -> u64
    ensures count { result ≡ count_of words.now }
    ensures few { result ≤ 65536 }
{
    let count = words[4] % KIND_UNIT;
    if kind_of(words) == LONG_WRITE {
        count + 1
    } else {
        count
    }
}

/// The set of its tails.
pub(crate) fn tails_of(words: &[u64; HEAD_WORDS]) -> u64
    ensures { result ≡ tails_of words.now }
{
    words[4] / TAILS_UNIT
}

/// Whether the gate is open, and the inode number that of a file.
pub(crate) fn is_entry(nodes: &[Node], words: &[u64; HEAD_WORDS]) -> bool
    ensures { result ≡ is_entry nodes.now words.now }
{
    words[0] != 0 && is_file(nodes, words[2])
}

/// Whether the words are a live entry of this inode number.
pub(crate) fn is_live(words: &[u64; HEAD_WORDS], ino: u64) -> bool
    ensures { result ≡ is_live ino words.now }
{
    words[0] != 0 && words[1] != 1 && words[2] == ino
}

/// Whether the words are a live entry of a file.
pub(crate) fn is_live_entry(nodes: &[Node], words: &[u64; HEAD_WORDS]) -> bool
    ensures { result ≡ is_live_entry nodes.now words.now }
{
    is_live(words, words[2]) && is_file(nodes, words[2])
}
