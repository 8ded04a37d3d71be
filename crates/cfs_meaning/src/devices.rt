//! Calls on one device over a meter, as the drive of a world attempts them.

ghost use Rattle.std.specs.Prelude.{◌<◌, IsTrue, length};
ghost use Rattle.cfs_pmem.specs.Faults.{HasCause};
ghost use Rattle.cfs_pmem.specs.Images.{words_of};
ghost use Rattle.cfs_pmem.specs.Meters.{asked_of};
ghost use Rattle.cfs_pmem.specs.WordOps.{set_ops};
ghost use Rattle.cfs_block.specs.BlockOps.{retag_ops};
ghost use Rattle.cfs_meaning.specs.Shown.{AttemptsBlock, AttemptsWords};

use cfs_block::{Block, retag};
use cfs_pmem::{DeviceFault, Meter, Region, set_word};

/// Sets a word of a region and persists it. Whatever stop and plans are set, each drive that shows
/// the region attempts these two steps with the same end, and is left as the region and the meter
/// are.
pub fn keep_word<R: Region>(
    region: &mut R,
    meter: &mut Meter,
    at: u32,
    word: u64,
) -> Result<(), DeviceFault>
    requires { at < length (words_of (R.seen region.old)) }
    ensures attempts { IsTrue R.obeys_power →
        AttemptsWords (set_ops at word) result
        (asked_of meter.old) (R.seen region.old) (asked_of meter.new) (R.seen region.new) }
    ensures cause { HasCause (R.faults region.old) (R.faults region.new) result }
{
    set_word(region, meter, at, word)
}

/// Sets the tag of a block and flushes it, in the same way, where the block leaves all that is read
/// as it was after a refusal.
pub fn keep_tag<B: Block>(block: &mut B, meter: &mut Meter, tag: u64) -> Result<(), DeviceFault>
    ensures attempts { IsTrue B.obeys_power → IsTrue B.keeps_refused →
        AttemptsBlock (retag_ops tag) result
        (asked_of meter.old) (B.seen block.old) (asked_of meter.new) (B.seen block.new) }
    ensures cause { HasCause (B.faults block.old) (B.faults block.new) result }
{
    retag(block, meter, tag)
}
