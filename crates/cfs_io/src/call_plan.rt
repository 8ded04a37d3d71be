//! Which calls of an object in memory are to fail.

ghost use Rattle.std.specs.Prelude.{◌≡◌, ◌↔◌, ◌^◌, ◌<◌, IsTrue, Contains};
ghost use Rattle.cfs_io.specs.Counts.{next_count};

/// The numbers of the calls that are to fail. Calls count from 1; the count stays at the end of
/// `u64`.
#[derive(Debug, Drop)]
pub(crate) struct CallPlan {
    pub(crate) failing: Vec<u64>,
    pub(crate) made: u64,
}

impl CallPlan {
    /// A plan before its first call. Takes no memory.
    pub(crate) fn new(failing: Vec<u64>) -> CallPlan
        ensures failing { result.failing ≡ failing }
        ensures made { result.made ≡ 0 }
    {
        CallPlan { failing, made: 0 }
    }

    /// Counts one more call, and says whether it is to fail.
    pub(crate) fn next_fails(&mut self) -> bool
        ensures fails { IsTrue result ↔ Contains self.old.failing.items (next_count self.old.made) }
        ensures failing { self.new.failing ≡ self.old.failing }
        ensures made { self.new.made ≡ next_count self.old.made }
    {
        self.made = self.made.saturating_add(1);
        self.failing.contains(&self.made)
    }
}
