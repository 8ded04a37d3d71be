//! The regions of the kernel's part are moved to the end of a list.
ghost use Rattle.std.specs.Prelude.{◌≡◌, ◌++◌, OnOk, map};
ghost use Rattle.std.specs.List.{flat_map};
ghost use Rattle.cfs_active.specs.Memory.{words_seen};
ghost use Rattle.cfs_gather.specs.Seens.{free_at, seens_in_kernel, seens_in_tree};

use crate::regions::{add_all, add_region, add_slots};
use cfs_file::NoMemory;
use cfs_kernel::NsState;
use cfs_names::StoredTree;
use cfs_pmem::{MemRegion, Region};
use cfs_queue::Queue;

/// Moves the selector, the two copies of the table and the records of the journal.
pub fn add_tree<R: Region + Drop>(
    regions: &mut Vec<R>,
    stored: StoredTree<R>,
) -> Result<(), NoMemory>
    ensures { OnOk result (map R.seen regions.new.items ≡
        map R.seen regions.old.items ++ seens_in_tree R.seen stored) }
{
    let (_tree, journal, checkpoint) = stored.into_parts();
    let (selector, tables) = checkpoint.into_parts();
    add_region(regions, selector)?;
    add_all(regions, tables)?;
    add_all(regions, journal.into_parts())
}

/// Moves the free slots of a queue that is home.
pub fn add_home(
    regions: &mut Vec<MemRegion>,
    queue: Option<Queue<MemRegion>>,
) -> Result<(), NoMemory>
    ensures { OnOk result (map words_seen regions.new.items ≡
        map words_seen regions.old.items ++ free_at words_seen queue) }
{
    match queue {
        Some(queue) => add_slots(regions, queue.into_parts()),
        None => Ok(()),
    }
}

/// Moves the free slots of the queues that are home, in order.
pub fn add_queues(
    regions: &mut Vec<MemRegion>,
    home: Vec<Option<Queue<MemRegion>>>,
) -> Result<(), NoMemory>
    ensures { OnOk result (map words_seen regions.new.items ≡
        map words_seen regions.old.items ++ flat_map (free_at words_seen) home.items) }
{
    for queue in home {
        add_home(regions, queue)?;
    }
    Ok(())
}

/// Moves all regions of the kernel's part.
pub fn add_kernel(regions: &mut Vec<MemRegion>, kernel: NsState<MemRegion>) -> Result<(), NoMemory>
    ensures { OnOk result (map words_seen regions.new.items ≡
        map words_seen regions.old.items ++ seens_in_kernel words_seen kernel) }
{
    let (stored, home) = kernel.into_parts();
    add_tree(regions, stored)?;
    add_queues(regions, home)
}
