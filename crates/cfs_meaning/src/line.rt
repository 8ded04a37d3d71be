//! The lines of the power as functions on real values, whose contracts are the ways of these lines.

ghost use Rattle.std.specs.Prelude.{◌<◌, IfOk};
ghost use Rattle.cfs_pmem.specs.Meters.{asked_of};
ghost use Rattle.cfs_words.specs.Values.{IsDevice};
ghost use Rattle.cfs_meaning.specs.Means.{Means, ShowsDrive, ShowsPower};
ghost use Rattle.cfs_meaning.specs.Play as lines;
ghost use Rattle.cfs_meaning.specs.Real.{drive_of};

use crate::Halt;
use crate::power::{crash, number_of, plan, stop};
use cfs_block::MemBlock;
use cfs_dir::Posix;
use cfs_image::Medium;
use cfs_pmem::{MemRegion, Meter};
use cfs_print::Printed;
use cfs_words::Device;
use std::alloc::AllocError;

/// The line `stop N`, whatever the world's devices and files are.
pub fn stop_line(meter: &mut Meter, n: u64) -> Result<Printed, Halt>
    requires { 0 < n }
    ensures means { Means ShowsPower (asked_of meter.old) result (asked_of meter.new)
        (lines.stop n) }
{
    stop(meter, n);
    Ok(Printed::Fine)
}

/// The line `crash K`.
pub fn crash_line(
    medium: &mut Medium<MemRegion, MemBlock>,
    meter: &mut Meter,
    k: u64,
) -> Result<Printed, Halt>
    ensures means { Means ShowsDrive
        (drive_of (asked_of meter.old) medium.old.regions.items medium.old.blocks.items) result
        (drive_of (asked_of meter.new) medium.new.regions.items medium.new.blocks.items)
        (lines.crash k) }
{
    crash(medium, meter, k);
    Ok(Printed::Fine)
}

/// The lines `fail DEVICE K` and `failread DEVICE K`. Without memory for the plan nothing is said.
pub fn fail_line(
    medium: &Medium<MemRegion, MemBlock>,
    meter: &mut Meter,
    device: Device,
    writing: bool,
    k: u64,
) -> Result<Result<Printed, Halt>, AllocError>
    requires named { IsDevice device }
    requires some { 0 < k }
    ensures means { IfOk result (λ end. Means ShowsDrive
        (drive_of (asked_of meter.old) medium.now.regions.items medium.now.blocks.items) end
        (drive_of (asked_of meter.new) medium.now.regions.items medium.now.blocks.items)
        (lines.plan device writing k)) }
{
    let regions = medium.regions.len() as u32;
    let blocks = medium.blocks.len() as u32;
    let Some(number) = number_of(device, regions, blocks) else {
        return Ok(Err(Halt::Says(Printed::Refused {
            error: Posix::InvalidArgument,
        })));
    };
    plan(meter, number, writing, k)?;
    Ok(Ok(Printed::Fine))
}
