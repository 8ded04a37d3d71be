//! Blocks that are tagged for no file are untagged.
ghost use Rattle.std.specs.Prelude.{◌≡◌, ◌<◌, ℕ, List, length, map, get_or, OnOk};
ghost use Rattle.cfs_pmem.specs.AllMoments.{AreDistinct};
ghost use Rattle.cfs_pmem.specs.Images.{Seen, WordStep};
ghost use Rattle.cfs_pmem.specs.Objects.{all_devices};
ghost use Rattle.cfs_slot.specs.Payload.{HaveCause};
ghost use Rattle.cfs_home.specs.Calls.{MountMoments, SetsTagAt};
ghost use Rattle.cfs_home.specs.Disks.{Disk, File};
ghost use Rattle.cfs_recover.specs.Begins.{Stands, both};
ghost use Rattle.cfs_recover.specs.Untagged.{AreNoTags, all_untagged, with_untagged};
ghost use Rattle.cfs_recover.specs.Untagged.{with_untagged_at};

use cfs_block::{Block, retag};
use cfs_pmem::{DeviceFault, Power};

/// Untags a block, and flushes it.
fn untag_block<B: Block, P: Power>(
    blocks: &mut [B],
    power: &mut P,
    at: usize,
) -> Result<(), DeviceFault>
    requires place { at < length blocks.old }
    requires distinct { AreDistinct (all_devices (map B.seen blocks.old)) }
    ensures ok { OnOk result
        (map B.seen blocks.new ≡ with_untagged_at at (map B.seen blocks.old)) }
    ensures moments { SetsTagAt at 0 (P.asked power.old) (map B.seen blocks.old)
        (P.asked power.new) (map B.seen blocks.new) }
    ensures devices { all_devices (map B.seen blocks.new) ≡ all_devices (map B.seen blocks.old) }
    ensures numbers { map B.number blocks.new ≡ map B.number blocks.old }
    ensures cause { HaveCause (map B.faults blocks.old) (map B.faults blocks.new) result }
{
    retag(&mut blocks[at], power, 0)
}

/// Untags blocks that are tagged for no file, by their places among all blocks and in their order.
/// A mount may stop at any moment of it.
pub fn untag<B: Block, P: Power>(
    blocks: &mut [B],
    power: &mut P,
    places: &[usize],
) -> Result<(), DeviceFault>
    requires within { (k : ℕ) → k < length places.now →
        get_or places.now k 0 < length blocks.old }
    requires distinct { AreDistinct (all_devices (map B.seen blocks.old)) }
    ensures ok { OnOk result
        (map B.seen blocks.new ≡ with_untagged places.now (map B.seen blocks.old)) }
    ensures moments { (files : List File) (start first : Disk) (regions : List (Seen WordStep)) →
        Stands files start first regions (map B.seen blocks.old) →
        AreNoTags files first places.now →
        MountMoments files start
        (P.asked power.old) (both regions (map B.seen blocks.old))
        (P.asked power.new) (both regions (map B.seen blocks.new)) }
    ensures stands { OnOk result
        ((files : List File) (start first : Disk) (regions : List (Seen WordStep)) →
        Stands files start first regions (map B.seen blocks.old) →
        AreNoTags files first places.now →
        Stands files start (all_untagged places.now first) regions (map B.seen blocks.new)) }
    ensures devices { all_devices (map B.seen blocks.new) ≡ all_devices (map B.seen blocks.old) }
    ensures numbers { map B.number blocks.new ≡ map B.number blocks.old }
    ensures cause { HaveCause (map B.faults blocks.old) (map B.faults blocks.new) result }
{
    for at in places {
        untag_block(blocks, power, *at)?;
    }
    Ok(())
}
