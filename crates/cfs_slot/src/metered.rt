//! What a stage does over the power of one thread.
ghost use Rattle.std.specs.Prelude.{◌≡◌, ◌-◌, ◌<◌, ◌≤◌, [], ◌∷◌, IsTrue, length};
ghost use Rattle.cfs_pmem.specs.Meter.{plans_of};
ghost use Rattle.cfs_pmem.specs.Meters.{asked_of};
ghost use Rattle.cfs_pmem.specs.Runs.{IsRun, Passes, StopsAt};
ghost use Rattle.cfs_pmem.specs.WordOps.{word_asks, word_done, WordFails};
ghost use Rattle.cfs_slot.specs.Operations.{stage_ops};
ghost use Rattle.cfs_slot.specs.Regions.{after_stage, of_slot};
ghost use Rattle.cfs_slot.specs.Staging.{IsStageable};

use crate::slot::Slot;
use crate::staged::Staged;
use cfs_file::Request;
use cfs_pmem::{Meter, Region};

/// As `Slot::stage`, over a meter: whatever stop and plans are set, what it answers and which words
/// it leaves is a function of all that the meter was asked and told before.
pub fn stage_metered<R: Region + Drop>(
    slot: Slot<R>,
    meter: &mut Meter,
    ino: u64,
    request: &Request,
    grant: u64,
) -> Result<Staged<R>, Slot<R>>
    requires { IsStageable request.now }
    ensures { IsTrue R.obeys_power →
        IsRun (word_asks (R.seen (of_slot slot)).device) word_done WordFails
        (stage_ops ino request.now grant) result
        (asked_of meter.old) (R.seen (of_slot slot))
        (asked_of meter.new) (R.seen (after_stage result)) }
{
    slot.stage(meter, ino, request, grant)
}

/// As `Slot::stage`, with a stop that is set first, at the `n`th writing step. Where the stage has
/// so many steps, it is refused, the words before that step are written, and the power is off; else
/// all is staged, and the stop is nearer by its steps.
pub fn stage_with_stop<R: Region + Drop>(
    slot: Slot<R>,
    meter: &mut Meter,
    n: u64,
    ino: u64,
    request: &Request,
    grant: u64,
) -> Result<Staged<R>, Slot<R>>
    requires stageable { IsStageable request.now }
    requires some { 0 < n }
    requires unplanned { plans_of (asked_of meter.old) ≡ [] }
    ensures stopped { IsTrue R.obeys_power → n ≤ length (stage_ops ino request.now grant) →
        StopsAt word_done WordFails (n - 1) (stage_ops ino request.now grant) result
        (R.seen (of_slot slot)) (asked_of meter.new) (R.seen (after_stage result)) }
    ensures passed { IsTrue R.obeys_power → length (stage_ops ino request.now grant) < n →
        Passes word_done (n - 1) (stage_ops ino request.now grant) result
        (R.seen (of_slot slot)) (asked_of meter.new) (R.seen (after_stage result)) }
{
    meter.stop(n);
    slot.stage(meter, ino, request, grant)
}
