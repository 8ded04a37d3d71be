//! Slots that are open and no live entry of a file.
ghost use Rattle.std.specs.Prelude.{IfOk, List, ◌≡◌};
ghost use Rattle.cfs_home.specs.Disks.{File};
ghost use Rattle.cfs_plan.specs.Files.{IsRecordMap};
ghost use Rattle.cfs_plan.specs.Lists.{dead_slots, is_dead};

use crate::lists::note_where;
use cfs_file::NoMemory;
use cfs_survey::HEAD_WORDS;
use indexmap::IndexMap;
use std::alloc::Global;

/// Whether a slot is open and no live entry of a file; `records` has the record of each file.
fn is_dead(records: &IndexMap<u64, u32>, words: &[u64; HEAD_WORDS]) -> bool
    ensures { (files : List File) → IsRecordMap files records.now →
        result ≡ is_dead files words.now }
{
    words[0] != 0 && (words[1] == 1 || !records.contains_key(&words[2]))
}

/// These slots by their places, ascending. `records` has the record of each file.
pub(crate) fn dead_slots(
    alloc: Global,
    records: &IndexMap<u64, u32>,
    slots: &[[u64; HEAD_WORDS]],
) -> Result<Vec<usize>, NoMemory>
    ensures { (files : List File) → IsRecordMap files records.now →
        IfOk result (λ dead. dead.items ≡ dead_slots files slots.now) }
{
    let mut dead = Vec::new(alloc);
    for (at, words) in slots.iter().enumerate() {
        note_where(&mut dead, at, is_dead(records, words))?;
    }
    Ok(dead)
}
