//! What holds of states and their jobs beside their calls, as contracts of functions that do
//! nothing.

ghost use Rattle.cfs_inode.specs.JobSteps.{JobStepsAreEvents};
ghost use Rattle.cfs_inode.specs.Knows.{JobsAreOut, StandingAreReady, TakenAreOut};
ghost use Rattle.cfs_inode.specs.Purges.{StandingTellZero};

/// What `dispatch` asks for holds of each state that stands.
pub fn standing_are_ready()
    ensures { StandingAreReady }
{}

/// What `finish` and `put_back` ask for of a job holds of each that a state has out.
pub fn jobs_are_out()
    ensures { JobsAreOut }
{}

/// And so it holds of a job that `dispatch` gave out.
pub fn taken_are_out()
    ensures { TakenAreOut }
{}

/// A state that stands and says that its size word is 0 in every image says right.
pub fn standing_tell_zero()
    ensures { StandingTellZero }
{}

/// A step of a job that is out is one event of the core, beside the state that gave the job out and
/// beside its other jobs.
pub fn job_steps_are_events()
    ensures { JobStepsAreEvents }
{}
