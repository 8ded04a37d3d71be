//! What a crash leaves of a store in memory.
ghost use Rattle.std.specs.Prelude.{◌≡◌, map, length};
ghost use Rattle.cfs_pmem.specs.Images.{words_of};
ghost use Rattle.cfs_block.specs.MemoryBlocks.{seen_of, number_of, faults_of};
ghost use Rattle.cfs_image.specs.Crash.{regions_left, after_regions, blocks_left, after_blocks, AreImages, AreBlockImages};

use crate::medium::Medium;
use cfs_block::MemBlock;
use cfs_pmem::{MemRegion, Pick};

/// Each region loses power, in order.
pub(crate) fn crash_regions(regions: &mut Vec<MemRegion>, pick: &mut Pick)
    ensures left { map (λ region. region.seen) regions.new.items ≡
        regions_left pick.old (map (λ region. region.seen) regions.old.items) }
    ensures pick { pick.new ≡
        after_regions pick.old (map (λ region. region.seen) regions.old.items) }
    ensures images { AreImages (map (λ region. region.seen) regions.old.items)
        (map (λ region. region.seen) regions.new.items) }
    ensures faults { map (λ region. region.faults) regions.new.items ≡
        map (λ region. region.faults) regions.old.items }
{
    for region in regions.iter_mut() {
        region.crash(pick);
    }
}

/// Each block loses power, in order.
pub(crate) fn crash_blocks(blocks: &mut Vec<MemBlock>, pick: &mut Pick)
    ensures left { map seen_of blocks.new.items ≡
        blocks_left pick.old (map seen_of blocks.old.items) }
    ensures pick { pick.new ≡ after_blocks pick.old (map seen_of blocks.old.items) }
    ensures images { AreBlockImages (map seen_of blocks.old.items) (map seen_of blocks.new.items) }
    ensures numbers { map number_of blocks.new.items ≡ map number_of blocks.old.items }
    ensures faults { map faults_of blocks.new.items ≡ map faults_of blocks.old.items }
{
    for block in blocks.iter_mut() {
        block.crash(pick);
    }
}

impl Medium<MemRegion, MemBlock> {
    /// Loses power: each object is left with one image, as the pick says, in the order of device
    /// numbers, and that image is all that a later crash may leave of it. The draws go on from
    /// object to object.
    pub fn crash(&mut self, pick: &mut Pick)
        ensures regions { map (λ region. region.seen) self.new.regions.items
            ≡ regions_left pick.old (map (λ region. region.seen) self.old.regions.items) }
        ensures blocks { map seen_of self.new.blocks.items
            ≡ blocks_left (after_regions pick.old
            (map (λ region. region.seen) self.old.regions.items))
            (map seen_of self.old.blocks.items) }
        ensures pick { pick.new
            ≡ after_blocks (after_regions pick.old
            (map (λ region. region.seen) self.old.regions.items))
            (map seen_of self.old.blocks.items) }
        ensures images { AreImages (map (λ region. region.seen) self.old.regions.items)
            (map (λ region. region.seen) self.new.regions.items) }
        ensures block_images { AreBlockImages (map seen_of self.old.blocks.items)
            (map seen_of self.new.blocks.items) }
        ensures faults { map (λ region. region.faults) self.new.regions.items ≡
            map (λ region. region.faults) self.old.regions.items }
        ensures block_faults { map faults_of self.new.blocks.items ≡
            map faults_of self.old.blocks.items }
    {
        crash_regions(&mut self.regions, pick);
        crash_blocks(&mut self.blocks, pick);
    }
}
