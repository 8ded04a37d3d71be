//! Workloads over the parts of a file's state, to time. `cfs_parts_bench WHAT SIZE N` does
//! something N times with a part of that size, and prints a number that follows from what was done:
//!
//! - `insert`, `remove`: a tree of SIZE spans is made, or made and emptied;
//! - `overlap`, `covered`: a tree of SIZE spans is asked;
//! - `scan_overlap`, `scan_covered`: a plain list of the same spans is asked the same;
//! - `pool`: one of SIZE blocks is taken and given back;
//! - `lend`, `put`: a block of a map of SIZE runs is lent and put back, or removed and put.
#![tactic(auto)]

mod extent;
mod plain;
mod pool;
mod tree;

use crate::tree::Work;
use anyhow::{Context, anyhow};
use std::alloc::Global;
use std::env;
use std::marker::Brand;
use std::sync::ledger::Blank;

fn main(rt: HostRuntime) -> anyhow::Result<()> {
    let alloc = rt.alloc();
    let mut words = env::args(&rt)?;
    let what = words.nth(1).context("what to do is missing")?;
    let size = number(words.next())?;
    let count = number(words.next())?;
    let sum = match work(what.as_str()) {
        Some(work) => tree::run::<Brand>(alloc, work, size, count, Blank::new(1))?,
        None => others(alloc, what.as_str(), size, count)?,
    };
    println!(rt; "{what}: {sum}")?;
    Ok(())
}

/// The number that a word of the command line spells.
fn number(word: Option<String>) -> anyhow::Result<u32> {
    let word = word.context("a number is missing")?;
    Ok(word.parse::<u32>().context("a number")?)
}

/// What is done with a tree, if it is a workload over one.
fn work(what: &str) -> Option<Work> {
    match what {
        "insert" => Some(Work::Insert),
        "remove" => Some(Work::Remove),
        "overlap" => Some(Work::Overlap),
        "covered" => Some(Work::Covered),
        _ => None,
    }
}

/// The other workloads.
fn others(alloc: Global, what: &str, size: u32, count: u32) -> anyhow::Result<u64> {
    match what {
        "scan_overlap" => Ok(plain::run(alloc, size, count, false)?),
        "scan_covered" => Ok(plain::run(alloc, size, count, true)?),
        "pool" => Ok(pool::run(alloc, size, count)?),
        "lend" => Ok(extent::lend(alloc, size, count)?),
        "put" => Ok(extent::put(alloc, size, count)?),
        _ => Err(anyhow!("no such workload")),
    }
}
