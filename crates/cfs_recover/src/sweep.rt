//! What is no file's: gates are closed, and size words are set to 0.
ghost use Rattle.std.specs.Prelude.{◌≡◌, ◌+◌, ◌<◌, ℕ, List, length, map, get_or, OnOk};
ghost use Rattle.cfs_pmem.specs.AllMoments.{AreDistinct};
ghost use Rattle.cfs_pmem.specs.Images.{Seen};
ghost use Rattle.cfs_pmem.specs.Objects.{all_devices};
ghost use Rattle.cfs_block.specs.BlockImages.{BlockStep};
ghost use Rattle.cfs_slot.specs.Payload.{HaveCause};
ghost use Rattle.cfs_home.specs.Calls.{MountMoments};
ghost use Rattle.cfs_home.specs.Disks.{Disk, File};
ghost use Rattle.cfs_recover.specs.Begins.{Stands, both};
ghost use Rattle.cfs_recover.specs.Swept.{AreDead, AreNoNodes, all_empty, all_shut};
ghost use Rattle.cfs_recover.specs.Swept.{with_no_sizes, with_shut};
ghost use Rattle.cfs_recover.specs.Words.{HaveFirstWords, lengths_of};

use crate::words::{close_gate, set_size};
use cfs_pmem::{DeviceFault, Power, Region};

/// Closes the gates of slots that are no live entry of a file, by their places among all slots and
/// in their order. A mount may stop at any moment of it.
pub fn close_dead<R: Region, P: Power>(
    regions: &mut [R],
    power: &mut P,
    places: &[usize],
) -> Result<(), DeviceFault>
    requires within { (k : ℕ) → k < length places.now →
        323 + get_or places.now k 0 < length regions.old }
    requires words { HaveFirstWords (map R.seen regions.old) }
    requires distinct { AreDistinct (all_devices (map R.seen regions.old)) }
    ensures ok { OnOk result
        (map R.seen regions.new ≡ with_shut places.now (map R.seen regions.old)) }
    ensures moments { (files : List File) (start first : Disk) (blocks : List (Seen BlockStep)) →
        Stands files start first (map R.seen regions.old) blocks →
        AreDead files first places.now →
        MountMoments files start
        (P.asked power.old) (both (map R.seen regions.old) blocks)
        (P.asked power.new) (both (map R.seen regions.new) blocks) }
    ensures stands { OnOk result
        ((files : List File) (start first : Disk) (blocks : List (Seen BlockStep)) →
        Stands files start first (map R.seen regions.old) blocks →
        AreDead files first places.now →
        Stands files start (all_shut places.now first) (map R.seen regions.new) blocks) }
    ensures lengths { lengths_of (map R.seen regions.new) ≡ lengths_of (map R.seen regions.old) }
    ensures devices { all_devices (map R.seen regions.new) ≡ all_devices (map R.seen regions.old) }
    ensures cause { HaveCause (map R.faults regions.old) (map R.faults regions.new) result }
{
    for at in places {
        close_gate(regions, power, *at)?;
    }
    Ok(())
}

/// Sets the size words of records that are no file's to 0, in their order. A mount may stop at any
/// moment of it.
pub fn clear_sizes<R: Region, P: Power>(
    regions: &mut [R],
    power: &mut P,
    nodes: &[usize],
) -> Result<(), DeviceFault>
    requires nodes { (k : ℕ) → k < length nodes.now → get_or nodes.now k 0 < 256 }
    requires place { 322 < length regions.old }
    requires words { HaveFirstWords (map R.seen regions.old) }
    requires distinct { AreDistinct (all_devices (map R.seen regions.old)) }
    ensures ok { OnOk result
        (map R.seen regions.new ≡ with_no_sizes nodes.now (map R.seen regions.old)) }
    ensures moments { (files : List File) (start first : Disk) (blocks : List (Seen BlockStep)) →
        Stands files start first (map R.seen regions.old) blocks → AreNoNodes files nodes.now →
        MountMoments files start
        (P.asked power.old) (both (map R.seen regions.old) blocks)
        (P.asked power.new) (both (map R.seen regions.new) blocks) }
    ensures stands { OnOk result
        ((files : List File) (start first : Disk) (blocks : List (Seen BlockStep)) →
        Stands files start first (map R.seen regions.old) blocks → AreNoNodes files nodes.now →
        Stands files start (all_empty nodes.now first) (map R.seen regions.new) blocks) }
    ensures lengths { lengths_of (map R.seen regions.new) ≡ lengths_of (map R.seen regions.old) }
    ensures devices { all_devices (map R.seen regions.new) ≡ all_devices (map R.seen regions.old) }
    ensures cause { HaveCause (map R.faults regions.old) (map R.faults regions.new) result }
{
    for node in nodes {
        set_size(regions, power, *node, 0)?;
    }
    Ok(())
}
