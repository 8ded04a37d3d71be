//! All regions and blocks of a store's files.
ghost use Rattle.std.specs.Prelude.{◌≡◌, ◌≤◌, ◌++◌, IfOk, filter, length, map, vec_len};
ghost use Rattle.std.specs.List.{flat_map, range_with_len};
ghost use Rattle.std.specs.List.Sorted.{IsPermutation};
ghost use Rattle.cfs_active.specs.Memory.{words_seen};
ghost use Rattle.cfs_block.specs.MemoryBlocks.{seen_of};
ghost use Rattle.cfs_gather.specs.Seens.{blocks_in_parts, seens_in_active};
ghost use Rattle.cfs_plan.specs.Files.{files_of};
ghost use Rattle.cfs_states.specs.Parts.{free_of, present, regions_of, states_of};
ghost use Rattle.cfs_states.specs.Stored.{AreStored, is_free_block, region_at, state_at};

use crate::files::records_of;
use crate::load::{Loaded, load_all};
use crate::pool::free_pool;
use crate::shares::Shares;
use cfs_active::ActiveInode;
use cfs_block::{FreeBlock, MemBlock};
use cfs_dir::Node;
use cfs_file::NoMemory;
use cfs_pmem::MemRegion;
use cfs_pool::Pool;
use std::alloc::Global;

/// The states of a store's files, its other size regions and its free blocks.
#[derive(Drop)]
pub struct FileParts {
    /// By record: the state of its file, where it has one.
    pub states: Vec<Option<ActiveInode>>,
    /// By record: its size region, where it has no file.
    pub sizes: Vec<Option<MemRegion>>,
    /// The blocks that no file has, with room for all blocks of the store.
    pub pool: Pool<FreeBlock<MemBlock>>,
}

/// The state of each file among these nodes, of the size regions of all records and all blocks of a
/// store on which nothing is pending; and the free blocks as a pool. No device is asked for a step.
///
/// Each block is looked at once, and those of a file are sorted by their numbers in it. Each node
/// is looked at once for each record.
/// Fails for want of memory alone, and then lets the devices go.
pub fn load_files(
    alloc: Global,
    nodes: &[Node],
    sizes: Vec<MemRegion>,
    blocks: Vec<MemBlock>,
) -> Result<FileParts, NoMemory>
    requires stored { AreStored (files_of nodes.now) (map words_seen sizes.items)
        (map seen_of blocks.items) }
    requires most { vec_len blocks ≤ 16384 }
    ensures states { IfOk result (λ parts. states_of parts ≡
        map (state_at (files_of nodes.now) (map words_seen sizes.items) (map seen_of blocks.items))
        (range_with_len 0 (length sizes.items))) }
    ensures sizes { IfOk result (λ parts. regions_of parts ≡
        map (region_at (files_of nodes.now) (map words_seen sizes.items))
        (range_with_len 0 (length sizes.items))) }
    ensures free { IfOk result (λ parts.
        IsPermutation (filter is_free_block blocks.items) (free_of parts)) }
    ensures room { IfOk result (λ parts. parts.pool.room ≡ vec_len blocks) }
    // Each region and each block is in one of the parts, and in one alone.
    ensures all_regions { IfOk result (λ parts. IsPermutation (map words_seen sizes.items)
        (present (regions_of parts) ++ flat_map seens_in_active (present (states_of parts)))) }
    ensures all_blocks { IfOk result (λ parts. IsPermutation (map seen_of blocks.items)
        (blocks_in_parts seen_of parts.pool.free (present (states_of parts)))) }
{
    let room = blocks.len() as u32;
    let records = records_of(alloc, nodes)?;
    let mut shares = Shares::new(alloc, nodes, sizes)?;
    shares.hand_out_all(&records, blocks)?;
    let Shares { of_records, free } = shares;
    let pool = free_pool(alloc, free, room)?;
    let Loaded { states, sizes } = load_all(alloc, of_records)?;
    Ok(FileParts {
        states,
        sizes,
        pool,
    })
}
