//! What a store holds, counted.
ghost use Rattle.std.specs.Prelude.{◌≡◌, IfOk, count_by, false, nat_eq, unwrap_or};
ghost use Rattle.std.specs.HashMap.{get};
ghost use Rattle.cfs_fsck.specs.Reports.{counts_of, is_noop, is_tag_of};
ghost use Rattle.cfs_survey.specs.Live.{in_order, live_entries};
ghost use Rattle.cfs_survey.specs.Surveys.{words_of};

use crate::kinds::{Kinds, is_file, kinds_of};
use crate::report::Report;
use cfs_file::NoMemory;
use cfs_survey::{HEAD_WORDS, StoreWords, Survey};
use std::alloc::Global;

/// What the inode number is multiplied by in a tag.
const TAG_UNIT: u64 = 65_536;

/// Whether a slot holds a no-op of a file.
fn is_noop(kinds: &Kinds, words: &[u64; HEAD_WORDS]) -> bool
    ensures { result ≡ is_noop (λ ino. unwrap_or (get nat_eq kinds.now ino) false) words.now }
{
    words[0] != 0 && words[1] == 1 && is_file(kinds, words[2])
}

/// How many slots hold a no-op of a file.
fn count_noops(kinds: &Kinds, slots: &[[u64; HEAD_WORDS]]) -> u64
    ensures { result ≡
        count_by (is_noop (λ ino. unwrap_or (get nat_eq kinds.now ino) false)) slots.now }
{
    slots.iter().filter(|words| is_noop(kinds, words)).count() as u64
}

/// How many blocks are tagged for a file.
fn count_tags(kinds: &Kinds, tags: &[u64]) -> u64
    ensures { result ≡
        count_by (is_tag_of (λ ino. unwrap_or (get nat_eq kinds.now ino) false)) tags.now }
{
    tags.iter()
        .filter(|tag| is_file(kinds, **tag / TAG_UNIT))
        .count() as u64
}

/// Counts what the store of these words holds, of which a survey told this.
pub(crate) fn count(alloc: Global, words: &StoreWords, survey: &Survey) -> Result<Report, NoMemory>
    requires { survey.now.entries.items ≡
        in_order (live_entries survey.now.tree.nodes.items words.now.slots.items) }
    ensures { IfOk result (λ report.
        report ≡ counts_of survey.now.tree.nodes.items (words_of words.now)) }
{
    let kinds = kinds_of(alloc, &survey.tree.nodes)?;
    Ok(Report {
        nodes: survey.tree.nodes.len() as u64,
        live: survey.entries.len() as u64,
        noop: count_noops(&kinds, &words.slots),
        blocks: count_tags(&kinds, &words.tags),
    })
}
