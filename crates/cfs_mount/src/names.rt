//! The names of a store, with its queues.
ghost use Rattle.std.specs.Prelude.{◌≡◌, ◌≤◌, ◌*◌, ◌<◌, IfOk, is_some, length, map, not};
ghost use Rattle.cfs_dir.specs.Namespace.{node_at};
ghost use Rattle.cfs_kernel.specs.Records.{is_unused};
ghost use Rattle.cfs_kernel.specs.States.{kernel_of, stored_of};
ghost use Rattle.cfs_mount.specs.Names.{mounted_kernel};
ghost use Rattle.cfs_mount.specs.Queues.{AreFreeSlots};
ghost use Rattle.cfs_names.specs.StoredTrees.{tree_of};

use crate::queues::queues_of;
use cfs_file::NoMemory;
use cfs_kernel::NsState;
use cfs_names::StoredTree;
use cfs_pmem::MemRegion;
use std::alloc::Global;

/// The kernel's part of a store that was just mounted: its stored tree, and its queues, 1 to 64,
/// each with 16 of these slots, in the order of their device numbers. No grant is given, no file
/// is removed, and a record is free exactly where no node has it. No device is asked for a step.
pub fn mounted_names(
    alloc: Global,
    stored: StoredTree<MemRegion>,
    slots: Vec<MemRegion>,
    queues: u32,
) -> Result<NsState<MemRegion>, NoMemory>
    requires most { queues ≤ 64 }
    requires count { length slots.items ≡ 16 * queues }
    requires free { AreFreeSlots 323 (map (λ region. region.seen) slots.items) }
    ensures stored { IfOk result (λ names. stored_of names ≡ stored) }
    ensures kernel { IfOk result (λ names.
        kernel_of names ≡ mounted_kernel (tree_of stored) slots.items queues) }
    ensures free { IfOk result (λ names. (rec : _) → rec < 256 →
        is_unused (tree_of stored).nodes (kernel_of names).removed rec
        ≡ not (is_some (node_at (tree_of stored).nodes rec))) }
{
    let home = queues_of(alloc, slots, queues)?;
    Ok(NsState::new(alloc, stored, home)?)
}
