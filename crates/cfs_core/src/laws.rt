//! What holds of every run, as contracts of functions that do nothing.

ghost use Rattle.cfs_core.specs.Laws.{ImagesOpenAsCores, JobStepsCommute, JobsAreApart, ListedUntilClosed, LiveAreOpen, MarkedAreCovered, MarksMayFollow, MomentsMayCome, OnlyLiveAreOpen, RunsAreGood, StepsStayInside};

/// After each event of every run of a fresh core, whatever failed and wherever it crashed, the log
/// is legal, a read that may be served gets its answer, and every image recovers the file after the
/// log.
pub fn runs_are_good()
    ensures { RunsAreGood }
{}

/// The moments within an event are failed events that may come where the event may.
pub fn moments_may_come()
    ensures { MomentsMayCome }
{}

/// What is open in an image is live: what was retired, skipped or marked is not recovered again.
pub fn only_live_are_open()
    ensures { OnlyLiveAreOpen }
{}

/// A job works on no position of an earlier live entry.
pub fn jobs_are_apart()
    ensures { JobsAreApart }
{}

/// An entry whose mark is set is covered by a later one.
pub fn marked_are_covered()
    ensures { MarkedAreCovered }
{}

/// What is live is open in an image, unless it is applied or a mark of it was tried.
pub fn live_are_open()
    ensures { LiveAreOpen }
{}

/// An image that a crash left is itself a core, whose log is the live entries: however they are
/// brought home, and wherever that is cut off, what is recovered is the same file.
pub fn images_open_as_cores()
    ensures { ImagesOpenAsCores }
{}

/// After a change is admitted, each mark that it may set may still come once those before it were
/// tried.
pub fn marks_may_follow()
    ensures { MarksMayFollow }
{}

/// A change stands in the queue of its grant from its admission until it is closed, and there is
/// written what became of it; a mount begins with empty queues.
pub fn listed_until_closed()
    ensures { ListedUntilClosed }
{}

/// A write or a flush of a job changes nothing beside its entry's track and its block.
pub fn steps_stay_inside()
    ensures { StepsStayInside }
{}

/// Two jobs whose steps may both come do not see each other: in either order they make the same
/// core, but that its stretches may stand in another order.
pub fn job_steps_commute()
    ensures { JobStepsCommute }
{}
