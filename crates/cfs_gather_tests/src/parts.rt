//! The parts of a store in use, made by hand.
ghost use Rattle.std.specs.Prelude.{All};
ghost use Rattle.cfs_block.specs.BlockImages.{IsSureBlock};
ghost use Rattle.cfs_block.specs.MemoryBlocks.{seen_of};

use crate::kernel::{kernel, zeros};
use cfs_active::ActiveInode;
use cfs_block::{FreeBlock, MemBlock};
use cfs_file::NoMemory;
use cfs_gather::{Gathered, gather};
use cfs_pmem::{MemRegion, Region};
use cfs_pool::Pool;
use std::alloc::Global;

/// The device of the size word that an inode has.
const SIZE: u32 = 68;

/// The regions of the size words that no file has.
fn sizes_of(alloc: Global, regions: Vec<MemRegion>) -> Result<Vec<MemRegion>, NoMemory> {
    let mut sizes = Vec::new(alloc);
    for region in regions {
        let device = region.device();
        if 67 <= device && device <= 322 && device != SIZE {
            sizes.push(region)?;
        }
    }
    Ok(sizes)
}

/// The blocks that have no tag.
fn free_blocks(alloc: Global, blocks: Vec<MemBlock>) -> Result<Vec<FreeBlock<MemBlock>>, NoMemory>
    requires { All (λ block. IsSureBlock (seen_of block)) blocks.items }
{
    let mut free = Vec::new(alloc);
    for block in blocks {
        if block.tag_word() == 0 {
            free.push(FreeBlock::new(block))?;
        }
    }
    Ok(free)
}

/// They are free.
fn pool_of(alloc: Global, blocks: Vec<MemBlock>) -> Result<Pool<FreeBlock<MemBlock>>, NoMemory>
    requires { All (λ block. IsSureBlock (seen_of block)) blocks.items }
{
    let free = free_blocks(alloc, blocks)?;
    if free.len() > 16 {
        return Err(NoMemory);
    }
    match Pool::new(alloc, free, 16) {
        Ok(pool) => Ok(pool),
        Err(_) => Err(NoMemory),
    }
}

/// An empty file in use.
fn an_inode(alloc: Global) -> Result<ActiveInode, NoMemory> {
    let size = zeros(alloc, SIZE, 1)?;
    match ActiveInode::new(alloc, 2, size) {
        Ok(active) => Ok(active),
        Err(_) => Err(NoMemory),
    }
}

/// All parts, gathered: the size words and the blocks are among these.
pub(crate) fn gathered_of(
    alloc: Global,
    regions: Vec<MemRegion>,
    blocks: Vec<MemBlock>,
) -> Result<Gathered, NoMemory>
    requires { All (λ block. IsSureBlock (seen_of block)) blocks.items }
{
    let inodes = vec![in alloc; an_inode(alloc)?]?;
    let pool = pool_of(alloc, blocks)?;
    let sizes = sizes_of(alloc, regions)?;
    gather(alloc, kernel(alloc)?, sizes, Vec::new(alloc), inodes, pool)
}
