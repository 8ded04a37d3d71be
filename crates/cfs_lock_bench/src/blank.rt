ghost use Rattle.std.specs.Prelude.{[]};

use cfs_lock::Recorded;

/// A counter with no log.
#[derive(Drop)]
pub struct Blank {
    pub turns: u64,
}

impl Recorded for Blank {
    ghost log = { λ _. [] };

    ghost part = { λ _ _. [] };

    fn count(&self) -> u64 {
        0
    }
}
