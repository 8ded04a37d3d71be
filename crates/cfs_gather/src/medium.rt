//! What was gathered is a medium.
ghost use Rattle.std.specs.Prelude.{◌≡◌, map};
ghost use Rattle.cfs_block.specs.MemoryBlocks.{number_of};
ghost use Rattle.cfs_gather.specs.Gathered.{bytes_in, words_in};
ghost use Rattle.cfs_image.specs.Store.{IsStore};

use crate::gathered::Gathered;
use cfs_block::MemBlock;
use cfs_image::Medium;
use cfs_pmem::MemRegion;

impl Gathered {
    /// The medium of these regions and blocks, which can be saved as an image or crash as one.
    pub fn into_medium(self) -> Medium<MemRegion, MemBlock>
        requires { IsStore (words_in self) (bytes_in self) (map number_of self.blocks.items) }
        ensures regions { result.regions ≡ self.regions }
        ensures blocks { result.blocks ≡ self.blocks }
    {
        let Gathered { regions, blocks } = self;
        Medium::new(regions, blocks)
    }
}
