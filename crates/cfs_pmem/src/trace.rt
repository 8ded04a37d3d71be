//! What a power was asked and told so far, which takes no room at run time.
ghost use Rattle.std.specs.Prelude.{◌≡◌, [], ◌∷◌};

use std::marker::Model;
use std::mem;
use std::snapshot::Snapshot;

/// One thing that a power was asked or told.
#[derive(Clone, Copy, Debug, PartialEq, Eq, Drop)]
pub enum Asked {
    /// A step of the device with this number: whether it writes, and whether it was allowed.
    Step(u32, bool, bool),
    /// A stop was set: the `n`th writing step from then on and all later steps are refused.
    Stopped(u64),
    /// A plan was set: the `k`th step of this device and direction from then on is refused.
    Planned(u32, bool, u64),
    /// The stop and all plans were ended.
    Revived,
}

/// All that a power was asked and told. Contracts alone read it, as a list of `Asked`, the newest
/// first.
#[derive(Drop)]
pub struct Trace {
    past: Snapshot<Past>,
}

/// One entry and those before it.
#[derive(Drop)]
enum Past {
    Start,
    Then(Asked, Snapshot<Past>),
}

impl Model for Trace {
    ghost use Rattle.std.specs.Prelude.{List};
    ghost use Rattle.cfs_pmem.specs.declared.trace.Asked.{Asked};

    ghost Value = { List Asked };

    ghost use Rattle.cfs_pmem.specs.Log.{entries};

    ghost view = { λ t. entries t.past.value };
}

impl Trace {
    /// Nothing so far.
    pub fn new() -> Trace
        ensures { result ≡ [] }
    {
        Trace {
            past: Snapshot::of(&Past::Start),
        }
    }

    /// Notes one more entry.
    #[inline]
    pub fn push(&mut self, asked: Asked)
        ensures { self.new ≡ asked ∷ self.old }
    {
        let before = mem::replace(&mut self.past, Snapshot::of(&Past::Start));
        self.past = Snapshot::of(&Past::Then(asked, before));
    }
}
