//! A call on a region and a block.
ghost use Rattle.std.specs.Prelude.{◌≡◌, ◌⊎◌, ◌<◌, length, OnErr};
ghost use Rattle.cfs_pmem.specs.Faults.{Rose};
ghost use Rattle.cfs_pmem.specs.AllMoments.{AreDistinct};
ghost use Rattle.cfs_pmem.specs.Images.{words_of};
ghost use Rattle.cfs_block.specs.Devices.{DeviceMoments, IsTagThenWord, TagsThenSets, numbers_of, pair_of};

use crate::block::{Block, retag};
use cfs_pmem::{DeviceFault, Power, Region, set_word};

/// Sets the tag of a block, and behind it a word of a region, each durably. A fault ends the call.
/// At each moment the word may be set only where the tag stands in every image.
pub fn retag_then_set_word<B: Block, R: Region, P: Power>(
    block: &mut B,
    region: &mut R,
    power: &mut P,
    tag: u64,
    at: u32,
    word: u64,
) -> Result<(), DeviceFault>
    requires within { at < length (words_of (R.seen region.old)) }
    requires distinct { AreDistinct (numbers_of (pair_of (R.seen region.old) (B.seen block.old))) }
    ensures calls { TagsThenSets B.obeys_power B.keeps_refused R.obeys_power tag at word result
        (P.asked power.old) (B.seen block.old) (R.seen region.old)
        (P.asked power.new) (B.seen block.new) (R.seen region.new) }
    ensures moments { DeviceMoments
        (IsTagThenWord (R.seen region.old) (B.seen block.old) tag at word)
        (P.asked power.old) (pair_of (R.seen region.old) (B.seen block.old))
        (P.asked power.new) (pair_of (R.seen region.new) (B.seen block.new)) }
    ensures number { B.number block.new ≡ B.number block.old }
    ensures cause { OnErr result
        (Rose (B.faults block.old) (B.faults block.new)
        ⊎ Rose (R.faults region.old) (R.faults region.new)) }
{
    retag(block, power, tag)?;
    set_word(region, power, at, word)
}
