//! The regions and blocks of a store.
ghost use Rattle.std.specs.Prelude.{◌≡◌, length, map};
ghost use Rattle.cfs_image.specs.Layout.{queues_of};
ghost use Rattle.cfs_image.specs.Store.{IsStore};

use crate::layout::FIRST_SLOT;
use cfs_block::Block;
use cfs_pmem::Region;

/// The regions and the blocks of a store, each list in the order of device numbers: the selector,
/// the two table copies, the 64 journal records, the 256 size words, 16 slots for each of 1 to 64
/// queues, and 16 to 16,384 blocks.
#[derive(Drop)]
pub struct Medium<R: Region, B: Block> {
    pub regions: Vec<R>,
    pub blocks: Vec<B>,
    pub ghost store: { IsStore (map R.seen regions.items) (map B.seen blocks.items)
        (map B.number blocks.items) },
}

impl<R: Region, B: Block> Medium<R, B> {
    /// A store of these regions and blocks.
    pub fn new(regions: Vec<R>, blocks: Vec<B>) -> Medium<R, B>
        requires { IsStore (map R.seen regions.items) (map B.seen blocks.items)
            (map B.number blocks.items) }
        ensures regions { result.regions ≡ regions }
        ensures blocks { result.blocks ≡ blocks }
    {
        Medium { regions, blocks }
    }

    /// How many queues it has.
    pub fn queues(&self) -> u32
        ensures { result ≡ queues_of (length self.now.regions.items) }
    {
        (self.regions.len() as u32 - FIRST_SLOT) / 16
    }

    /// The regions and the blocks, as they are. Takes no memory.
    pub fn into_parts(self) -> (Vec<R>, Vec<B>)
        ensures regions { result.0 ≡ self.regions }
        ensures blocks { result.1 ≡ self.blocks }
    {
        let Medium { regions, blocks } = self;
        (regions, blocks)
    }
}
