//! Why a list of events was not made.

ghost use Rattle.std.specs.Prelude.{◌≡◌};
ghost use Rattle.cfs_events.specs.declared.event_refusal.EventRefusal.TheVariants as refusals;

use cfs_file::NoMemory;
use thiserror::Error;

/// Why a list of events was not made.
#[derive(Clone, Copy, Debug, PartialEq, Eq, Error)]
pub enum EventRefusal {
    /// Event `at`, counted from 0, is the first that may not come.
    #[error("event {at} may not come")]
    Refused { at: u64 },
    /// Want of memory.
    #[error("out of memory")]
    NoMemory,
}

impl From<NoMemory> for EventRefusal {
    ghost from_gives = { λ _ e. e ≡ refusals.NoMemory };

    fn from(_: NoMemory) -> EventRefusal {
        EventRefusal::NoMemory
    }
}
