//! The free blocks of a store.
ghost use Rattle.std.specs.Prelude.{◌≡◌, ◌≤◌, IfOk, map, vec_len};
ghost use Rattle.std.specs.List.Sorted.{IsPermutation};

use cfs_block::{FreeBlock, MemBlock};
use cfs_file::NoMemory;
use cfs_pool::Pool;
use std::alloc::Global;

/// The blocks that no file has, as a pool with room for so many blocks.
pub fn free_pool(
    alloc: Global,
    free: Vec<FreeBlock<MemBlock>>,
    room: u32,
) -> Result<Pool<FreeBlock<MemBlock>>, NoMemory>
    requires { vec_len free ≤ room }
    ensures free { IfOk result (λ pool. IsPermutation
        (map (λ one. one.block) free.items) (map (λ one. one.block) pool.free)) }
    ensures room { IfOk result (λ pool. pool.room ≡ room) }
{
    let pool = Pool::new(alloc, free, room)?;
    Ok(pool)
}
