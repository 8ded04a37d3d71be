ghost use Rattle.std.specs.Prelude.{◌≡◌, ◌<◌, ◌≤◌};
ghost use Rattle.cfs_extent.specs.Runs.{AreRuns, IsSeat};

use crate::run::Run;

/// Where a file block stands among runs, or would stand.
#[derive(Clone, Copy, Debug)]
pub(crate) struct Seat {
    /// The index of the first run that ends past it.
    pub run: usize,
    /// How many file blocks the runs before have.
    pub before: usize,
}

/// The seat of a file block. It looks at the runs one after another.
pub(crate) fn seek(runs: &[Run], block: u32) -> Seat
    requires { AreRuns 0 runs.now }
    ensures { IsSeat runs.now block result.run result.before }
{
    let mut before = 0;
    for (index, run) in runs.iter().enumerate() {
        if block < run.end() {
            return Seat { run: index, before };
        }
        before += run.count as usize;
    }
    Seat {
        run: runs.len(),
        before,
    }
}
