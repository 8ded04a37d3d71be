//! The files of a tree by their inode numbers and by their records.
ghost use Rattle.std.specs.Prelude.{IfOk, ◌≡◌};
ghost use Rattle.cfs_plan.specs.Files.{IsRecordMap, files_of};
ghost use Rattle.cfs_states.specs.Begins.{owner_at};

use cfs_dir::Node;
use cfs_file::NoMemory;
use indexmap::IndexMap;
use std::alloc::Global;

/// The record of each file, by its inode number.
pub fn records_of(alloc: Global, nodes: &[Node]) -> Result<IndexMap<u64, u32>, NoMemory>
    ensures { IfOk result (IsRecordMap (files_of nodes.now)) }
{
    let mut records = IndexMap::with_capacity(alloc, nodes.len())?;
    for k in (0..nodes.len()).rev() {
        let node = &nodes[k];
        if !node.kind.is_directory() {
            records.insert(node.ino, node.rec)?;
        }
    }
    Ok(records)
}

/// The inode number of the file that has this record, where one has it. Linear in the nodes.
pub fn owner_of(nodes: &[Node], node: usize) -> Option<u64>
    ensures { result ≡ owner_at (files_of nodes.now) node }
{
    let found = nodes
        .iter()
        .find(|one| one.rec as usize == node && !one.kind.is_directory())?;
    Some(found.ino)
}
