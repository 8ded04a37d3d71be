//! A map of a file's blocks.

use crate::plain::drawn;
use cfs_extent::{BLOCKS, ExtentMap};
use std::alloc::{AllocError, Global};

/// A map of all blocks in one run, or of every other one, and how far they are apart.
fn filled(alloc: Global, runs: u32) -> Result<(ExtentMap<u64>, u32), AllocError> {
    let apart = if runs == 1 { 1 } else { 2 };
    let mut map = ExtentMap::new(alloc);
    for index in 0..BLOCKS / apart {
        keep(&mut map, index * apart)?;
    }
    Ok((map, apart))
}

/// Maps a file block, if it is not mapped.
fn keep(map: &mut ExtentMap<u64>, k: u32) -> Result<(), AllocError> {
    map.reserve(1)?;
    if k < BLOCKS && !map.is_mapped(k) {
        map.put(k, u64::from(k));
    }
    Ok(())
}

/// A drawn file block of those that are mapped.
fn block_from(state: u64, apart: u32) -> u32 {
    let drawn = (state >> 33) % u64::from(BLOCKS);
    let block = drawn as u32;
    if apart == 1 { block } else { block / 2 * 2 }
}

/// Lends a block of a map of so many runs and puts it back, so many times.
pub fn lend(alloc: Global, runs: u32, count: u32) -> Result<u64, AllocError> {
    let (mut map, apart) = filled(alloc, runs)?;
    let mut sum: u64 = 0;
    let mut state = 7;
    for _ in 0..count {
        state = drawn(state);
        sum = sum.wrapping_add(again(&mut map, block_from(state, apart)));
    }
    Ok(sum)
}

/// Lends a block and puts it back.
fn again(map: &mut ExtentMap<u64>, k: u32) -> u64 {
    let Some(block) = map.lend(k) else {
        return 0;
    };
    map.put_back(k, block);
    block
}

/// Removes a block of a map of so many runs and puts it back, so many times.
pub fn put(alloc: Global, runs: u32, count: u32) -> Result<u64, AllocError> {
    let (mut map, apart) = filled(alloc, runs)?;
    let mut sum: u64 = 0;
    let mut state = 7;
    for _ in 0..count {
        state = drawn(state);
        let k = block_from(state, apart);
        sum = sum.wrapping_add(map.remove(k).unwrap_or(0));
        keep(&mut map, k)?;
    }
    Ok(sum)
}
