//! Whether what was gathered is a store.
ghost use Rattle.std.specs.Prelude.{◌≡◌, ◌<◌, ◌^◌, IsTrue, length};
ghost use Rattle.cfs_gather_tests.specs.InOrder.{AreBlocksInOrder, AreRegionsInOrder};

use cfs_block::{Block, MemBlock};
use cfs_gather::Gathered;
use cfs_image::{Medium, region_words};
use cfs_pmem::{MemRegion, Region};

/// How many regions and blocks the smallest store has.
const REGIONS: u32 = 339;

const BLOCKS: usize = 16;

/// Whether regions have the numbers and the sizes of a store's, in order.
fn are_regions(regions: &[MemRegion]) -> bool
    requires { length regions.now < 2 ^ 32 }
    ensures { IsTrue result → AreRegionsInOrder regions.now }
{
    let mut device = 0;
    for region in regions {
        if region.device() != device || region.words().len() != region_words(device) {
            return false;
        }
        device += 1;
    }
    true
}

/// Whether blocks have their own numbers and those behind the regions, in order.
fn are_blocks(blocks: &[MemBlock]) -> bool
    requires { length blocks.now < 2 ^ 31 }
    ensures { IsTrue result → AreBlocksInOrder blocks.now }
{
    let mut number = 0;
    for block in blocks {
        if block.device() != REGIONS + number || block.number() != number {
            return false;
        }
        number += 1;
    }
    true
}

/// The medium of the smallest store, if that is what was gathered.
pub(crate) fn medium_of(gathered: Gathered) -> Option<Medium<MemRegion, MemBlock>> {
    if gathered.regions.len() != REGIONS as usize || gathered.blocks.len() != BLOCKS {
        return None;
    }
    if !are_regions(&gathered.regions) || !are_blocks(&gathered.blocks) {
        return None;
    }
    Some(gathered.into_medium())
}
