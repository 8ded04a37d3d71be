//! Live entries with the records of their files.
ghost use Rattle.std.specs.Prelude.{IfOk, List, ◌≡◌};
ghost use Rattle.cfs_home.specs.Disks.{File};
ghost use Rattle.cfs_plan.specs.Files.{IsRecordMap};
ghost use Rattle.cfs_plan.specs.Pendings.{pending_of, pendings};

use cfs_file::NoMemory;
use cfs_replay::Pending;
use cfs_survey::LiveEntry;
use indexmap::IndexMap;
use std::alloc::Global;

/// A live entry with the record of its file, which `records` has by its inode number.
fn pending_of(records: &IndexMap<u64, u32>, entry: &LiveEntry) -> Pending
    ensures { (files : List File) → IsRecordMap files records.now →
        result ≡ pending_of files entry.now }
{
    let node = records.get(&entry.ino).copied().unwrap_or(0);
    Pending {
        node: node as usize,
        ino: entry.ino,
        slot: entry.slot as usize,
    }
}

/// All of them, in their order.
pub(crate) fn pendings_of(
    alloc: Global,
    records: &IndexMap<u64, u32>,
    entries: &[LiveEntry],
) -> Result<Vec<Pending>, NoMemory>
    ensures { (files : List File) → IsRecordMap files records.now →
        IfOk result (λ list. list.items ≡ pendings files entries.now) }
{
    let mut pendings = Vec::with_capacity(alloc, entries.len())?;
    for entry in entries {
        pendings.push(pending_of(records, entry))?;
    }
    Ok(pendings)
}
