//! Turns at locks, to time. `cfs_lock_bench one N` enters and leaves a lock N times by one thread,
//! `shared N` does so by four threads on one lock, N times each, and `apart N` by four threads on
//! four locks.
#![tactic(auto)]

mod blank;
mod four;
mod turns;

use anyhow::{Context, anyhow};
use std::env;

fn main(rt: HostRuntime) -> anyhow::Result<()> {
    let mut words = env::args(&rt)?;
    let form = words.nth(1).context("one, shared or apart is missing")?;
    let count = words
        .next()
        .context("the number of turns is missing")?
        .parse::<u64>()
        .context("the number of turns")?;
    let done = match form.as_str() {
        "one" => turns::alone(&rt, rt.alloc(), count),
        "shared" => four::on_one_lock(&rt, rt.alloc(), count),
        "apart" => four::on_four_locks(&rt, rt.alloc(), count),
        _ => return Err(anyhow!("one, shared or apart")),
    };
    done.context("no memory for a lock")?;
    println!(rt; "{count} turns")?;
    Ok(())
}
