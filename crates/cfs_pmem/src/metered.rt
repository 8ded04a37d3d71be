//! What calls do over the power of one thread.
ghost use Rattle.std.specs.Prelude.{◌≡◌, ◌-◌, ◌<◌, ◌≤◌, [], ◌∷◌, IsTrue, length};
ghost use Rattle.cfs_pmem.specs.Images.{words_of};
ghost use Rattle.cfs_pmem.specs.Meter.{plans_of};
ghost use Rattle.cfs_pmem.specs.Meters.{asked_of};
ghost use Rattle.cfs_pmem.specs.Runs.{IsRun, Passes, StopsAt};
ghost use Rattle.cfs_pmem.specs.WordOps.{word_asks, word_done, WordFails, set_ops, SetsWord};
ghost use Rattle.cfs_pmem.specs.Faults.{HasCause};
ghost use Rattle.cfs_pmem.specs.declared.trace.Asked.TheVariants.{Stopped};

use crate::fault::DeviceFault;
use crate::meter::Meter;
use crate::region::{Region, set_word};

/// As `set_word`, over a meter: whatever stop and plans are set, what it answers and leaves is a
/// function of all that the meter was asked and told before.
pub fn set_word_metered<R: Region>(
    region: &mut R,
    meter: &mut Meter,
    at: u32,
    word: u64,
) -> Result<(), DeviceFault>
    requires { at < length (words_of (R.seen region.old)) }
    ensures set { SetsWord R.obeys_power at word result
        (asked_of meter.old) (R.seen region.old) (asked_of meter.new) (R.seen region.new) }
    ensures cause { HasCause (R.faults region.old) (R.faults region.new) result }
    ensures run { IsTrue R.obeys_power →
        IsRun (word_asks (R.seen region.old).device) word_done WordFails (set_ops at word) result
        (asked_of meter.old) (R.seen region.old) (asked_of meter.new) (R.seen region.new) }
{
    set_word(region, meter, at, word)
}

/// As `set_word`, with a stop that is set first, at the `n`th writing step: up to the second step
/// it cuts the call off there, and else it is nearer by two.
pub fn set_word_with_stop<R: Region>(
    region: &mut R,
    meter: &mut Meter,
    n: u64,
    at: u32,
    word: u64,
) -> Result<(), DeviceFault>
    requires some { 0 < n }
    requires within { at < length (words_of (R.seen region.old)) }
    requires unplanned { plans_of (asked_of meter.old) ≡ [] }
    ensures set { SetsWord R.obeys_power at word result
        (Stopped n ∷ asked_of meter.old) (R.seen region.old)
        (asked_of meter.new) (R.seen region.new) }
    ensures cause { HasCause (R.faults region.old) (R.faults region.new) result }
    ensures stopped { IsTrue R.obeys_power → n ≤ 2 →
        StopsAt word_done WordFails (n - 1) (set_ops at word) result
        (R.seen region.old) (asked_of meter.new) (R.seen region.new) }
    ensures passed { IsTrue R.obeys_power → 2 < n →
        Passes word_done (n - 1) (set_ops at word) result
        (R.seen region.old) (asked_of meter.new) (R.seen region.new) }
{
    meter.stop(n);
    set_word(region, meter, at, word)
}
