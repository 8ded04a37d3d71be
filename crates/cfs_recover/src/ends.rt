//! The words of a live entry whose bytes stand: the size word is set, and the gate is closed.
ghost use Rattle.std.specs.Prelude.{◌≡◌, ◌+◌, ◌<◌, ℕ, List, length, map, OnOk};
ghost use Rattle.cfs_file.specs.declared.request.Request.{Request};
ghost use Rattle.cfs_pmem.specs.AllMoments.{AreDistinct};
ghost use Rattle.cfs_pmem.specs.Images.{Seen};
ghost use Rattle.cfs_pmem.specs.Objects.{all_devices};
ghost use Rattle.cfs_block.specs.BlockImages.{BlockStep};
ghost use Rattle.cfs_slot.specs.Payload.{HaveCause};
ghost use Rattle.cfs_home.specs.Calls.{MountMoments};
ghost use Rattle.cfs_home.specs.Disks.{Disk, File};
ghost use Rattle.cfs_recover.specs.Begins.{Stands, both};
ghost use Rattle.cfs_recover.specs.Brought.{AreBrought};
ghost use Rattle.cfs_recover.specs.Settled.{settled, with_entry_home, with_size_word};
ghost use Rattle.cfs_recover.specs.Words.{HaveFirstWords, lengths_of};

use crate::entry::Entry;
use crate::words::{close_gate, set_size};
use cfs_pmem::{DeviceFault, Power, Region};

/// Sets the size word of an entry's file where it changes, and persists it.
fn settle_size<R: Region, P: Power>(
    regions: &mut [R],
    power: &mut P,
    entry: Entry,
) -> Result<(), DeviceFault>
    requires node { entry.node < 256 }
    requires place { 67 + entry.node < length regions.old }
    requires words { HaveFirstWords (map R.seen regions.old) }
    requires distinct { AreDistinct (all_devices (map R.seen regions.old)) }
    ensures ok { OnOk result
        (map R.seen regions.new ≡ with_size_word entry (map R.seen regions.old)) }
    ensures moments { (files : List File) (file : File) (live : ℕ × Request)
        (rest : List (ℕ × Request)) (start first : Disk) (blocks : List (Seen BlockStep)) →
        AreBrought files file entry live rest start first (map R.seen regions.old) blocks →
        MountMoments files start
        (P.asked power.old) (both (map R.seen regions.old) blocks)
        (P.asked power.new) (both (map R.seen regions.new) blocks) }
    ensures lengths { lengths_of (map R.seen regions.new) ≡ lengths_of (map R.seen regions.old) }
    ensures devices { all_devices (map R.seen regions.new) ≡ all_devices (map R.seen regions.old) }
    ensures cause { HaveCause (map R.faults regions.old) (map R.faults regions.new) result }
{
    if entry.size == entry.size_after {
        return Ok(());
    }
    set_size(regions, power, entry.node, entry.size_after)
}

/// Sets the size word of an entry's file where it changes, and then closes the entry's gate. Once
/// its bytes stand a mount may stop at any moment of this, and the entry is home behind it.
pub fn settle<R: Region, P: Power>(
    regions: &mut [R],
    power: &mut P,
    entry: Entry,
) -> Result<(), DeviceFault>
    requires node { entry.node < 256 }
    requires place { 323 + entry.slot < length regions.old }
    requires words { HaveFirstWords (map R.seen regions.old) }
    requires distinct { AreDistinct (all_devices (map R.seen regions.old)) }
    ensures ok { OnOk result
        (map R.seen regions.new ≡ with_entry_home entry (map R.seen regions.old)) }
    ensures moments { (files : List File) (file : File) (live : ℕ × Request)
        (rest : List (ℕ × Request)) (start first : Disk) (blocks : List (Seen BlockStep)) →
        AreBrought files file entry live rest start first (map R.seen regions.old) blocks →
        MountMoments files start
        (P.asked power.old) (both (map R.seen regions.old) blocks)
        (P.asked power.new) (both (map R.seen regions.new) blocks) }
    ensures stands { OnOk result ((files : List File) (file : File) (live : ℕ × Request)
        (rest : List (ℕ × Request)) (start first : Disk) (blocks : List (Seen BlockStep)) →
        AreBrought files file entry live rest start first (map R.seen regions.old) blocks →
        Stands files start (settled entry first) (map R.seen regions.new) blocks) }
    ensures lengths { lengths_of (map R.seen regions.new) ≡ lengths_of (map R.seen regions.old) }
    ensures devices { all_devices (map R.seen regions.new) ≡ all_devices (map R.seen regions.old) }
    ensures cause { HaveCause (map R.faults regions.old) (map R.faults regions.new) result }
{
    settle_size(regions, power, entry)?;
    close_gate(regions, power, entry.slot)
}
