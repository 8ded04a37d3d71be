//! Blocks that are tagged for no file.
ghost use Rattle.std.specs.Prelude.{IfOk, List, ◌≡◌};
ghost use Rattle.cfs_home.specs.Disks.{File};
ghost use Rattle.cfs_plan.specs.Files.{IsRecordMap};
ghost use Rattle.cfs_plan.specs.Lists.{is_stray, stray_blocks};

use crate::lists::note_where;
use cfs_file::NoMemory;
use indexmap::IndexMap;
use std::alloc::Global;

/// What the inode number is multiplied by in a tag.
const TAG_UNIT: u64 = 65_536;

/// Whether a tag is not 0, and of no file; `records` has the record of each file.
fn is_stray(records: &IndexMap<u64, u32>, tag: u64) -> bool
    ensures { (files : List File) → IsRecordMap files records.now →
        result ≡ is_stray files tag }
{
    tag != 0 && !records.contains_key(&(tag / TAG_UNIT))
}

/// The blocks that have such a tag by their places, ascending. `records` has the record of each
/// file.
pub(crate) fn stray_blocks(
    alloc: Global,
    records: &IndexMap<u64, u32>,
    tags: &[u64],
) -> Result<Vec<usize>, NoMemory>
    ensures { (files : List File) → IsRecordMap files records.now →
        IfOk result (λ stray. stray.items ≡ stray_blocks files tags.now) }
{
    let mut stray = Vec::new(alloc);
    for (at, tag) in tags.iter().enumerate() {
        note_where(&mut stray, at, is_stray(records, *tag))?;
    }
    Ok(stray)
}
