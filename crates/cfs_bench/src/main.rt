//! Workloads to time. `cfs_bench N` stages, opens and closes N requests of 4096 bytes, one after
//! another on one slot in memory, and prints how many it was; `cfs_bench long N` does so with
//! requests of 65,536 bytes in the slots of a queue. `cfs_bench image BLOCKS QUEUES N` makes an
//! image, and reads and writes it N times. `cfs_bench read SCRIPT N` reads a script N times, and
//! `cfs_bench print SCRIPT N` reads it once and prints it N times.
#![tactic(auto)]

mod image;
mod long;
mod script;

ghost use Rattle.std.specs.Prelude.{◌<◌};
ghost use Rattle.cfs_slot.specs.Staging.{IsStageable};

use anyhow::{Context, anyhow};
use cfs_file::{Bytes, Request};
use cfs_image::{FIRST_SLOT, region_words};
use cfs_pmem::{DeviceFault, MemRegion, Meter};
use cfs_slot::{Slot, is_stageable};
use std::alloc::{AllocError, Global};
use std::{env, fs};

fn main(rt: HostRuntime) -> anyhow::Result<()> {
    let alloc = rt.alloc();
    let mut words = env::args(&rt)?;
    let word = words.nth(1).context("the number of requests is missing")?;
    if word.as_str() == "image" {
        let blocks = number(words.next())?;
        let queues = number(words.next())?;
        let count = number(words.next())?;
        let len = image::read_and_write(alloc, blocks, queues, u64::from(count))?;
        println!(rt; "{count} images of {len} bytes")?;
        return Ok(());
    }
    if word.as_str() == "long" {
        let count = number(words.next())?;
        long::admit_all(alloc, u64::from(count))?;
        println!(rt; "{count} requests")?;
        return Ok(());
    }
    if word.as_str() == "read" || word.as_str() == "print" {
        let path = words.next().context("a script is missing")?;
        let count = u64::from(number(words.next())?);
        let bytes = fs::read(&rt, path.as_str())?;
        if word.as_str() == "read" {
            let lines = script::read(alloc, bytes.as_slice(), count)?;
            println!(rt; "{count} times {lines} lines")?;
        } else {
            let len = script::print(alloc, bytes.as_slice(), count)?;
            println!(rt; "{count} times {len} bytes")?;
        }
        return Ok(());
    }
    let count = word.parse::<u64>().context("the number of requests")?;
    let payload = vec![in alloc; b'x'; 4096]?;
    let request = Request::Write {
        offset: 0,
        bytes: Bytes::from_vec(payload),
    };
    if !is_stageable(&request) {
        return Err(anyhow!("no slot holds such a request"));
    }
    admit_all(empty_slot(alloc)?, alloc, &request, count).map_err(|_| anyhow!("a device fault"))?;
    println!(rt; "{count} requests")?;
    Ok(())
}

/// The number that a word of the command line spells.
fn number(word: Option<String>) -> anyhow::Result<u32> {
    let word = word.context("a number is missing")?;
    Ok(word.parse::<u32>().context("a number")?)
}

fn empty_slot(alloc: Global) -> Result<Slot<MemRegion>, AllocError> {
    let region = MemRegion::new(
        alloc,
        FIRST_SLOT,
        vec![in alloc; 0; region_words(FIRST_SLOT)]?,
    )?;
    Ok(Slot::new(region))
}

/// The same request, so many times.
fn admit_all(
    mut slot: Slot<MemRegion>,
    alloc: Global,
    request: &Request,
    count: u64,
) -> Result<(), DeviceFault>
    requires { IsStageable request.now }
{
    let mut meter = Meter::calm(alloc);
    for place in 1..=count {
        slot = admit(slot, &mut meter, request, place)?;
    }
    Ok(())
}

/// One request's way through a slot: staged, its gate opened and closed.
fn admit(
    slot: Slot<MemRegion>,
    meter: &mut Meter,
    request: &Request,
    place: u64,
) -> Result<Slot<MemRegion>, DeviceFault>
    requires stageable { IsStageable request.now }
    requires place { 0 < place }
{
    let Ok(staged) = slot.stage(meter, 2, request, 1) else {
        return Err(DeviceFault);
    };
    let Ok(live) = staged.open_gate(meter, place) else {
        return Err(DeviceFault);
    };
    let Ok(mut slots) = live.close_gate(meter) else {
        return Err(DeviceFault);
    };
    slots.pop().ok_or(DeviceFault)
}
