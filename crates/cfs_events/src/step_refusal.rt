//! Why an event was not made.

ghost use Rattle.std.specs.Prelude.{◌≡◌};
ghost use Rattle.cfs_events.specs.declared.step_refusal.StepRefusal.TheVariants as steps;

use cfs_file::NoMemory;
use std::alloc::AllocError;

/// Why an event was not made.
#[derive(Clone, Copy)]
pub(crate) enum StepRefusal {
    /// It may not come.
    NoCase,
    /// Want of memory.
    NoMemory,
}

impl From<NoMemory> for StepRefusal {
    ghost from_gives = { λ _ e. e ≡ steps.NoMemory };

    fn from(_: NoMemory) -> StepRefusal {
        StepRefusal::NoMemory
    }
}

impl From<AllocError> for StepRefusal {
    ghost from_gives = { λ _ e. e ≡ steps.NoMemory };

    fn from(_: AllocError) -> StepRefusal {
        StepRefusal::NoMemory
    }
}
