//! All parts of a store in use, gathered in device order.
ghost use Rattle.std.specs.Prelude.{◌≡◌, IfOk, map};
ghost use Rattle.std.specs.List.Sorted.{IsNonDecreasingBy, IsPermutation};
ghost use Rattle.cfs_active.specs.Memory.{words_seen};
ghost use Rattle.cfs_active.specs.View.{active_view};
ghost use Rattle.cfs_block.specs.MemoryBlocks.{seen_of};
ghost use Rattle.cfs_gather.specs.Gathered.{block_device, bytes_in, region_device, words_in};
ghost use Rattle.cfs_gather.specs.Seens.{blocks_in_parts, seens_in_parts};
ghost use Rattle.cfs_gather.specs.WordForWord.{FindsAll};

use crate::blocks::add_pool;
use crate::gathered::Gathered;
use crate::kernel::add_kernel;
use crate::regions::add_all;
use crate::slots::add_all_staged;
use cfs_active::ActiveInode;
use cfs_block::{Block, FreeBlock, MemBlock};
use cfs_file::NoMemory;
use cfs_kernel::NsState;
use cfs_pmem::{MemRegion, Region};
use cfs_pool::Pool;
use cfs_slot::Staged;
use std::alloc::Global;

/// Sorts regions by their device numbers.
fn sort_regions(regions: &mut Vec<MemRegion>)
    ensures same { IsPermutation regions.old.items regions.new.items }
    ensures ascending { IsNonDecreasingBy region_device regions.new.items }
{
    regions.sort_unstable_by_key(|region| region.device());
}

/// Sorts blocks by their device numbers.
fn sort_blocks(blocks: &mut Vec<MemBlock>)
    ensures same { IsPermutation blocks.old.items blocks.new.items }
    ensures ascending { IsNonDecreasingBy block_device blocks.new.items }
{
    blocks.sort_unstable_by_key(|block| block.device());
}

/// The regions and the blocks of all parts, in any order.
fn all_parts(
    alloc: Global,
    kernel: NsState<MemRegion>,
    sizes: Vec<MemRegion>,
    requests: Vec<Staged<MemRegion>>,
    inodes: Vec<ActiveInode>,
    pool: Pool<FreeBlock<MemBlock>>,
) -> Result<Gathered, NoMemory>
    ensures regions { IfOk result (λ gathered. words_in gathered ≡
        seens_in_parts words_seen kernel sizes.items requests.items
        (map active_view inodes.items)) }
    ensures blocks { IfOk result (λ gathered. bytes_in gathered ≡
        blocks_in_parts seen_of pool.free (map active_view inodes.items)) }
{
    let mut gathered = Gathered::new(alloc);
    add_kernel(&mut gathered.regions, kernel)?;
    add_all(&mut gathered.regions, sizes)?;
    add_all_staged(&mut gathered.regions, requests)?;
    add_pool(&mut gathered.blocks, pool)?;
    gathered.add_inodes(inodes)?;
    Ok(gathered)
}

/// The regions and the blocks of all parts of a store, each list ascending by device number,
/// whatever stands in the parts: pending entries, jobs that are out, doubts, staged requests. It
/// makes no device step, so that each region and block is seen as it was.
///
/// `sizes` are the regions of the size words that no file in use has.
/// Without memory the devices are let go.
#[tactic(auto, using(crate::proofs::ListLemmas::told_permutation))]
pub fn gather(
    alloc: Global,
    kernel: NsState<MemRegion>,
    sizes: Vec<MemRegion>,
    requests: Vec<Staged<MemRegion>>,
    inodes: Vec<ActiveInode>,
    pool: Pool<FreeBlock<MemBlock>>,
) -> Result<Gathered, NoMemory>
    ensures regions { IfOk result (λ gathered. IsPermutation
        (seens_in_parts words_seen kernel sizes.items requests.items
        (map active_view inodes.items))
        (words_in gathered)) }
    ensures blocks { IfOk result (λ gathered. IsPermutation
        (blocks_in_parts seen_of pool.free (map active_view inodes.items))
        (bytes_in gathered)) }
    // Where the parts hold each device of a store once, they are its regions and its blocks.
    ensures found_regions { IfOk result (λ gathered. FindsAll
        (seens_in_parts words_seen kernel sizes.items requests.items
        (map active_view inodes.items))
        (words_in gathered)) }
    ensures found_blocks { IfOk result (λ gathered. FindsAll
        (blocks_in_parts seen_of pool.free (map active_view inodes.items))
        (bytes_in gathered)) }
    ensures region_order { IfOk result (λ gathered.
        IsNonDecreasingBy region_device gathered.regions.items) }
    ensures block_order { IfOk result (λ gathered.
        IsNonDecreasingBy block_device gathered.blocks.items) }
{
    let mut gathered = all_parts(alloc, kernel, sizes, requests, inodes, pool)?;
    sort_regions(&mut gathered.regions);
    sort_blocks(&mut gathered.blocks);
    Ok(gathered)
}
