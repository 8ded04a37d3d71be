use crate::numbered::Numbered;
use cfs_block::{Block, FreeBlock};

impl<B: Block> Numbered for FreeBlock<B> {
    ghost number = { λ f. B.number f.block };

    fn number(&self) -> u32 {
        self.block.number()
    }
}
