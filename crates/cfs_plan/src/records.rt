//! The records of files.
ghost use Rattle.std.specs.Prelude.{IfOk, ◌≡◌};
ghost use Rattle.cfs_plan.specs.Files.{IsRecordMap, files_of};

use cfs_dir::Node;
use cfs_file::NoMemory;
use indexmap::IndexMap;
use std::alloc::Global;

/// The record of each file, by its inode number.
pub(crate) fn records_of(alloc: Global, nodes: &[Node]) -> Result<IndexMap<u64, u32>, NoMemory>
    ensures { IfOk result (IsRecordMap (files_of nodes.now)) }
{
    let mut records = IndexMap::with_capacity(alloc, nodes.len())?;
    for k in (0..nodes.len()).rev() {
        let node = &nodes[k];
        if !node.kind.is_directory() {
            records.insert(node.ino, node.rec)?;
        }
    }
    Ok(records)
}
