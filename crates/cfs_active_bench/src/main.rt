//! A workload over the state of one inode, to time. `cfs_active_bench N` writes N times a block of
//! 4096 bytes of a file of 256 blocks, on devices in memory: each write is staged in a slot,
//! admitted, given to a job, applied and finished, and its slot is collected for the next one. It
//! prints how many slots were collected.
#![tactic(auto)]

mod inode;
mod medium;
mod work;

use crate::work::Work;
use anyhow::Context;
use std::env;

fn main(rt: HostRuntime) -> anyhow::Result<()> {
    let mut words = env::args(&rt)?;
    let word = words.nth(1).context("the number of requests is missing")?;
    let count = word.parse::<u64>().context("the number of requests")?;
    let mut work = Work::new(rt.alloc())?;
    let collected = work.run(rt.alloc(), count)?;
    println!(rt; "{collected} slots were collected")?;
    Ok(())
}
