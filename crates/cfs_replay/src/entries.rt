//! Every live entry is brought home.
ghost use Rattle.std.specs.Prelude.{ℕ, List, ◌≡◌, ◌<◌, ◌++◌, [], OnOk, length, map};
ghost use Rattle.std.specs.Prelude.{get_or};
ghost use Rattle.cfs_pmem.specs.AllMoments.{AreDistinct};
ghost use Rattle.cfs_block.specs.Devices.{numbers_of};
ghost use Rattle.cfs_home.specs.Calls.{MountMoments};
ghost use Rattle.cfs_home.specs.Disks.{Disk, File};
ghost use Rattle.cfs_slot.specs.Payload.{HaveCause};
ghost use Rattle.cfs_recover.specs.Begins.{Stands, both};
ghost use Rattle.cfs_recover.specs.Words.{HaveFirstWords, lengths_of};
ghost use Rattle.cfs_replay.specs.Entries.{AreInOrder, CanReplay, HaveLeft};
ghost use Rattle.cfs_replay.specs.Pieces.{FindsBlocks, tags_in};
ghost use Rattle.cfs_replay.specs.Reading.{AreSlots};

use crate::one::replay_entry;
use crate::pending::Pending;
use cfs_block::Block;
use cfs_pmem::{DeviceFault, Power, Region};
use indexmap::IndexMap;

/// Brings the live entries of all files home, in the order in which they are listed: by inode
/// number, and those of one file by ascending gate. `found` has the block of each tag of a file,
/// and `buffer` room for a payload.
///
/// A crash at any moment leaves what a mount finds the same files in, also where it fails, which it
/// does for a device fault alone. Behind `Ok` no entry of any file is live.
pub fn replay_entries<R: Region, B: Block, P: Power>(
    regions: &mut [R],
    blocks: &mut [B],
    power: &mut P,
    found: &IndexMap<u64, u32>,
    entries: &[Pending],
    buffer: &mut [u8],
) -> Result<(), DeviceFault>
    requires entries { (k : ℕ) (d : Pending) → k < length entries.now →
        CanReplay found.now (tags_in (map B.seen blocks.old)) (map R.seen regions.old)
        (get_or entries.now k d) }
    requires slots { AreSlots (map R.seen regions.old) }
    requires words { HaveFirstWords (map R.seen regions.old) }
    requires buffer { length buffer.old ≡ 65536 }
    requires distinct { AreDistinct
        (numbers_of (both (map R.seen regions.old) (map B.seen blocks.old))) }
    ensures moments { (files : List File) (start first : Disk) →
        Stands files start first (map R.seen regions.old) (map B.seen blocks.old) →
        AreInOrder files first.slots first.blocks entries.now →
        MountMoments files start
        (P.asked power.old) (both (map R.seen regions.old) (map B.seen blocks.old))
        (P.asked power.new) (both (map R.seen regions.new) (map B.seen blocks.new)) }
    ensures replayed { OnOk result ((files : List File) (start first : Disk) →
        Stands files start first (map R.seen regions.old) (map B.seen blocks.old) →
        AreInOrder files first.slots first.blocks entries.now →
        HaveLeft files start first []
        (map R.seen regions.new) (map B.seen blocks.new)) }
    ensures lengths { lengths_of (map R.seen regions.new) ≡ lengths_of (map R.seen regions.old) }
    ensures tags { OnOk result
        (tags_in (map B.seen blocks.new) ≡ tags_in (map B.seen blocks.old)) }
    ensures devices { numbers_of (both (map R.seen regions.new) (map B.seen blocks.new))
        ≡ numbers_of (both (map R.seen regions.old) (map B.seen blocks.old)) }
    ensures buffer { length buffer.new ≡ 65536 }
    ensures numbers { map B.number blocks.new ≡ map B.number blocks.old }
    ensures cause { HaveCause (map R.faults regions.old ++ map B.faults blocks.old)
        (map R.faults regions.new ++ map B.faults blocks.new) result }
{
    for pending in entries {
        replay_entry(regions, blocks, power, found, *pending, buffer)?;
    }
    Ok(())
}
