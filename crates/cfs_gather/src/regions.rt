//! Regions are moved to the end of a list.
ghost use Rattle.std.specs.Prelude.{◌≡◌, ◌++◌, ◌∷◌, [], IfOk, OnOk, map};
ghost use Rattle.cfs_slot.specs.Regions.{of_slot, of_slots};
ghost use Rattle.cfs_vec.specs.Items.{items_of};

use cfs_file::NoMemory;
use cfs_pmem::Region;
use cfs_slot::Slot;
use cfs_vec::FixedVec;

/// Moves a region to the end.
pub fn add_region<R: Region + Drop>(regions: &mut Vec<R>, region: R) -> Result<(), NoMemory>
    ensures { OnOk result (map R.seen regions.new.items ≡
        map R.seen regions.old.items ++ R.seen region ∷ []) }
{
    regions.push(region)?;
    Ok(())
}

/// Moves regions to the end, in order.
pub fn add_all<R: Region + Drop>(regions: &mut Vec<R>, more: Vec<R>) -> Result<(), NoMemory>
    ensures { OnOk result (map R.seen regions.new.items ≡
        map R.seen regions.old.items ++ map R.seen more.items) }
{
    for region in more {
        add_region(regions, region)?;
    }
    Ok(())
}

/// Moves regions to the end, in order.
pub fn add_fixed<R: Region + Drop, const N: usize>(
    regions: &mut Vec<R>,
    mut more: FixedVec<R, N>,
) -> Result<(), NoMemory>
    ensures { OnOk result (map R.seen regions.new.items ≡
        map R.seen regions.old.items ++ map R.seen (items_of more)) }
{
    more.reverse();
    while let Some(region) = more.pop() {
        add_region(regions, region)?;
    }
    Ok(())
}

/// Moves the regions of free slots to the end, in order.
pub fn add_slots<R: Region + Drop, const N: usize>(
    regions: &mut Vec<R>,
    mut slots: FixedVec<Slot<R>, N>,
) -> Result<(), NoMemory>
    ensures { OnOk result (map R.seen regions.new.items ≡
        map R.seen regions.old.items ++ map R.seen (of_slots slots)) }
{
    slots.reverse();
    while let Some(slot) = slots.pop() {
        add_region(regions, slot.into_parts())?;
    }
    Ok(())
}
