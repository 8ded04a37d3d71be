//! A list of events.

ghost use Rattle.std.specs.Prelude.{◌≡◌, IfOk, IfErr};
ghost use Rattle.cfs_core.specs.Fresh.{IsFresh};
ghost use Rattle.cfs_core.specs.Good.{IsGood};
ghost use Rattle.cfs_core.specs.Run.{IsRun, IsRefusal, after_all};
ghost use Rattle.cfs_events.specs.Step.{OnRefused};

use crate::EventRefusal;
use crate::step::step;
use crate::step_refusal::StepRefusal;
use cfs_core::{Core, Event};
use std::alloc::Global;

/// Takes a core through a list of events. Slow: an admission and a mount go through the whole log.
///
/// `Refused { at }` comes exactly where event `at`, counted from 0, is the first that may not come.
/// From a fresh core, the events come to a core whose every image recovers the file after the log.
pub fn run_events(alloc: Global, core: Core, events: &[Event]) -> Result<Core, EventRefusal>
    ensures run { IfOk result (λ last. IsRun core events.now) }
    ensures made { IfOk result (λ last. last ≡ after_all core events.now) }
    ensures good { IsFresh core → IfOk result IsGood }
    ensures refused { IfErr result
        (λ refusal. OnRefused refusal (λ at. IsRefusal at core events.now)) }
{
    let mut core = core;
    for (at, event) in events.iter().enumerate() {
        match step(alloc, &mut core, event) {
            Ok(()) => {}
            Err(StepRefusal::NoCase) => return Err(EventRefusal::Refused { at: at as u64 }),
            Err(StepRefusal::NoMemory) => return Err(EventRefusal::NoMemory),
        }
    }
    Ok(core)
}
