//! The tags of blocks are read.
ghost use Rattle.std.specs.Prelude.{◌≡◌, ◌<◌, IfOk, get_or, length, map};
ghost use Rattle.cfs_pmem.specs.AllMoments.{AreDistinct};
ghost use Rattle.cfs_pmem.specs.Objects.{all_devices};
ghost use Rattle.cfs_block.specs.BlockImages.{IsBlockImage};
ghost use Rattle.cfs_slot.specs.Payload.{HaveCause};
ghost use Rattle.cfs_store_words.specs.Causes.{ReadCaused, TellsCause};
ghost use Rattle.cfs_store_words.specs.Leaves.{LeavesEach};
ghost use Rattle.cfs_store_words.specs.Rows.{tag_at, tag_in};

use crate::read_failed::ReadFailed;
use cfs_block::Block;
use cfs_pmem::{DeviceFault, Power};
use std::alloc::Global;

/// Reads the tag of the block at a place.
fn read_tag<B: Block, P: Power>(
    blocks: &mut [B],
    power: &mut P,
    place: usize,
) -> Result<u64, DeviceFault>
    requires place { place < length blocks.old }
    requires distinct { AreDistinct (all_devices (map B.seen blocks.old)) }
    ensures tag { IfOk result (λ tag. tag ≡ tag_at (map B.seen blocks.old) place) }
    ensures leaves { LeavesEach IsBlockImage (P.asked power.old) (map B.seen blocks.old)
        (P.asked power.new) (map B.seen blocks.new) }
    ensures numbers { map B.number blocks.new ≡ map B.number blocks.old }
    ensures cause { HaveCause (map B.faults blocks.old) (map B.faults blocks.new) result }
{
    blocks[place].tag(power)
}

/// Reads the tag of each block.
pub(crate) fn read_tags<B: Block, P: Power>(
    alloc: Global,
    blocks: &mut [B],
    power: &mut P,
) -> Result<Vec<u64>, ReadFailed>
    requires distinct { AreDistinct (all_devices (map B.seen blocks.old)) }
    ensures tags { IfOk result (λ tags. tags.items ≡ map tag_in (map B.seen blocks.old)) }
    ensures leaves { LeavesEach IsBlockImage (P.asked power.old) (map B.seen blocks.old)
        (P.asked power.new) (map B.seen blocks.new) }
    ensures numbers { map B.number blocks.new ≡ map B.number blocks.old }
    ensures cause { TellsCause ReadCaused (map B.faults blocks.old) (map B.faults blocks.new)
        result }
{
    let mut tags = Vec::with_capacity(alloc, blocks.len())?;
    for place in 0..blocks.len() {
        let tag = read_tag(blocks, power, place)?;
        tags.push(tag)?;
    }
    Ok(tags)
}
