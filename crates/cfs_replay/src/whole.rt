//! A mount's whole work on the devices of a store.
ghost use Rattle.std.specs.Prelude.{ℕ, List, ◌≡◌, ◌<◌, ◌++◌, OnOk, length, map, get_or};
ghost use Rattle.cfs_pmem.specs.AllMoments.{AreDistinct};
ghost use Rattle.cfs_block.specs.Devices.{numbers_of};
ghost use Rattle.cfs_home.specs.Calls.{MountMoments};
ghost use Rattle.cfs_home.specs.Disks.{Disk, File};
ghost use Rattle.cfs_slot.specs.Payload.{HaveCause};
ghost use Rattle.cfs_recover.specs.Begins.{Stands, both};
ghost use Rattle.cfs_recover.specs.Words.{HaveFirstWords, lengths_of};
ghost use Rattle.cfs_replay.specs.declared.pending.Pending.{Pending};
ghost use Rattle.cfs_replay.specs.Entries.{CanReplay};
ghost use Rattle.cfs_replay.specs.Pieces.{tags_in};
ghost use Rattle.cfs_replay.specs.Plans.{IsBroughtHome, IsPlanFor, IsWithin};
ghost use Rattle.cfs_replay.specs.Reading.{AreSlots};

use crate::entries::replay_entries;
use crate::plan::Plan;
use cfs_block::Block;
use cfs_pmem::{DeviceFault, Power, Region};
use cfs_recover::{clear_sizes, close_dead, untag};
use indexmap::IndexMap;

/// Carries out what a mount is to do: dead slots are closed, the live entries of all files are
/// brought home, blocks that are no file's are untagged, and size words that are no file's are set
/// to 0. `found` has the block of each tag of a file, and `buffer` room for a payload of 65536
/// bytes.
///
/// A crash at any moment leaves what another mount finds the same files in, also where this one
/// fails, which it does for a device fault alone. Behind `Ok` each file is stored as it was to be
/// found, no gate is open, and what is no file's has neither a size nor a block.
pub fn replay<R: Region, B: Block, P: Power>(
    regions: &mut [R],
    blocks: &mut [B],
    power: &mut P,
    found: &IndexMap<u64, u32>,
    plan: &Plan,
    buffer: &mut [u8],
) -> Result<(), DeviceFault>
    requires place { 322 < length regions.old }
    requires within { IsWithin plan.now (length regions.old) (length blocks.old) }
    requires entries { (k : ℕ) (d : Pending) → k < length plan.now.entries.items →
        CanReplay found.now (tags_in (map B.seen blocks.old)) (map R.seen regions.old)
        (get_or plan.now.entries.items k d) }
    requires slots { AreSlots (map R.seen regions.old) }
    requires words { HaveFirstWords (map R.seen regions.old) }
    requires buffer { length buffer.old ≡ 65536 }
    requires distinct { AreDistinct
        (numbers_of (both (map R.seen regions.old) (map B.seen blocks.old))) }
    ensures moments { (files : List File) (start first : Disk) →
        Stands files start first (map R.seen regions.old) (map B.seen blocks.old) →
        IsPlanFor files first plan.now →
        MountMoments files start
        (P.asked power.old) (both (map R.seen regions.old) (map B.seen blocks.old))
        (P.asked power.new) (both (map R.seen regions.new) (map B.seen blocks.new)) }
    ensures home { OnOk result ((files : List File) (start first : Disk) →
        Stands files start first (map R.seen regions.old) (map B.seen blocks.old) →
        IsPlanFor files first plan.now →
        IsBroughtHome files start first (map R.seen regions.new) (map B.seen blocks.new)) }
    ensures lengths { lengths_of (map R.seen regions.new) ≡ lengths_of (map R.seen regions.old) }
    ensures devices { numbers_of (both (map R.seen regions.new) (map B.seen blocks.new))
        ≡ numbers_of (both (map R.seen regions.old) (map B.seen blocks.old)) }
    ensures numbers { map B.number blocks.new ≡ map B.number blocks.old }
    ensures buffer { length buffer.new ≡ 65536 }
    ensures cause { HaveCause (map R.faults regions.old ++ map B.faults blocks.old)
        (map R.faults regions.new ++ map B.faults blocks.new) result }
{
    close_dead(regions, power, &plan.dead)?;
    replay_entries(regions, blocks, power, found, &plan.entries, buffer)?;
    untag(blocks, power, &plan.untagged)?;
    clear_sizes(regions, power, &plan.emptied)
}
