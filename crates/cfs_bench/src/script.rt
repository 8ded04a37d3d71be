//! Scripts to time: one is read, or read once and printed, so many times.

use cfs_script::{print_script, read_play};
use std::alloc::Global;

/// How many lines the script of these bytes has, which is read `count` times.
pub fn read(alloc: Global, bytes: &[u8], count: u64) -> anyhow::Result<usize> {
    let mut lines = 0;
    for _ in 0..count {
        lines = read_play(alloc, bytes)?.lines().len();
    }
    Ok(lines)
}

/// The length of the canonical text of the script of these bytes, which is printed `count` times.
pub fn print(alloc: Global, bytes: &[u8], count: u64) -> anyhow::Result<usize> {
    let script = read_play(alloc, bytes)?;
    let mut len = 0;
    for _ in 0..count {
        len = print_script(alloc, &script)?.len();
    }
    Ok(len)
}
