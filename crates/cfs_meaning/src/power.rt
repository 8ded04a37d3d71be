//! What the lines of the power do to a meter and to a store in memory.

ghost use Rattle.std.specs.Prelude.{◌≡◌, ◌+◌, ◌^◌, ◌<◌, OnOk, length};
ghost use Rattle.cfs_pmem.specs.Meters.{asked_of};
ghost use Rattle.cfs_words.specs.Values.{IsDevice};
ghost use Rattle.cfs_meaning.specs.Play.{crashed, number_in, planned, stopped};
ghost use Rattle.cfs_meaning.specs.Real.{ChangesPower, drive_of};

use cfs_block::MemBlock;
use cfs_file::FIRST_SLOT;
use cfs_image::Medium;
use cfs_pmem::{MemRegion, Meter, Pick};
use cfs_words::Device;
use std::alloc::AllocError;

/// The line `stop N`: the `n`th writing step from now on and all later steps are refused. Where the
/// power is off, nothing changes.
pub fn stop(meter: &mut Meter, n: u64)
    requires { 0 < n }
    ensures { ChangesPower (stopped n) (asked_of meter.old) (asked_of meter.new) }
{
    if !meter.is_off() {
        meter.stop(n);
    }
}

/// The lines `fail` and `failread`: the `k`th step of a device and direction from now on is
/// refused.
pub fn plan(meter: &mut Meter, device: u32, writing: bool, k: u64) -> Result<(), AllocError>
    requires { 0 < k }
    ensures { OnOk result
        (ChangesPower (planned device writing k) (asked_of meter.old) (asked_of meter.new)) }
{
    meter.plan(device, writing, k)
}

/// The line `crash K`: each word and byte is left as the pick says, and the stop and all plans end.
pub fn crash(medium: &mut Medium<MemRegion, MemBlock>, meter: &mut Meter, k: u64)
    ensures { drive_of (asked_of meter.new) medium.new.regions.items medium.new.blocks.items
        ≡ crashed k
        (drive_of (asked_of meter.old) medium.old.regions.items medium.old.blocks.items) }
{
    let mut pick = Pick::new(k);
    medium.crash(&mut pick);
    meter.revive();
}

/// The device number of a device that a script names, where a store of so many regions and blocks
/// has it.
pub fn number_of(device: Device, regions: u32, blocks: u32) -> Option<u32>
    requires named { IsDevice device }
    requires fits { regions + blocks < 2 ^ 32 }
    ensures { result ≡ number_in device regions blocks }
{
    match device {
        Device::Selector => Some(0),
        Device::Table(copy) => Some(1 + copy as u32),
        Device::Journal(position) => Some(3 + position as u32),
        Device::Size(rec) => Some(67 + rec as u32),
        Device::Slot(queue, slot) => slot_number(queue, slot, regions),
        Device::Block(block) => block_number(block, regions, blocks),
    }
}

fn slot_number(queue: u64, slot: u64, regions: u32) -> Option<u32>
    requires { (queue < 2 ^ 32) × (slot < 2 ^ 32) }
    ensures { result ≡ number_in (Device.Slot queue slot) regions 0 }
{
    let number = u64::from(FIRST_SLOT) + 16 * queue + slot;
    if slot < 16 && number < u64::from(regions) {
        Some(number as u32)
    } else {
        None
    }
}

fn block_number(block: u64, regions: u32, blocks: u32) -> Option<u32>
    requires { regions + blocks < 2 ^ 32 }
    ensures { result ≡ number_in (Device.Block block) regions blocks }
{
    if block < u64::from(blocks) {
        Some(regions + block as u32)
    } else {
        None
    }
}
