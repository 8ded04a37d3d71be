//! Further laws of the core of one inode, as contracts of functions that do nothing.
//!
//! `specs/Laws.antt` states them. They hold of every core that there is (`specs/Reached.antt`): of
//! fresh cores, of what events make of them, and of images that are opened as cores.
#![tactic(auto)]

ghost use Rattle.cfs_core_laws.specs.Laws.{BlocksAreLentOnce, BroughtHomeAreFresh, BroughtHomeAreRecovered, ChangesMakeTheCore, ImagesAreClean, JobsAscend, LentAreWanted, ListsAreInStep, MomentsAreNamed, MomentsRecover, MountedAreFresh, NamedAreReached, ReachedAreGood, RestedAreFresh, RunsAreReached, SizesAreFiles, StretchesAreShort, StretchesAreWithin, TagsMayCome, ThroughMayRetire, ThroughStands, UntaggedAreZero};

/// The laws hold at the end of every run of a core that they hold of.
pub fn runs_are_reached()
    ensures { RunsAreReached }
{}

/// What holds of the runs of a fresh core holds of every core that there is: its log is legal, a
/// read gets its answer, and every image recovers the file after the log.
pub fn reached_are_good()
    ensures { ReachedAreGood }
{}

/// The lists of a core have the lengths that they should, and the request in doubt has a place at
/// the end of the log.
pub fn lists_are_in_step()
    ensures { ListsAreInStep }
{}

/// Each stretch of bytes that no flush has made sure of lies in the block that it begins in.
pub fn stretches_are_short()
    ensures { StretchesAreShort }
{}

/// Each such stretch ends no later than the bytes that read.
pub fn stretches_are_within()
    ensures { StretchesAreWithin }
{}

/// Each size that an image may have is one of a file.
pub fn sizes_are_files()
    ensures { SizesAreFiles }
{}

/// No block of the file is out with two jobs.
pub fn blocks_are_lent_once()
    ensures { BlocksAreLentOnce }
{}

/// A job has only blocks that are mapped and that its entry has still to write.
pub fn lent_are_wanted()
    ensures { LentAreWanted }
{}

/// A job's blocks ascend.
pub fn jobs_ascend()
    ensures { JobsAscend }
{}

/// A block of the file that is not tagged in every image is zero.
pub fn untagged_are_zero()
    ensures { UntaggedAreZero }
{}

/// A block of the file that is not tagged in every image may be tagged.
pub fn tags_may_come()
    ensures { TagsMayCome }
{}

/// What a job has written and flushed stands in every image, once no block of its entry is left.
pub fn through_stands()
    ensures { ThroughStands }
{}

/// An entry whose job is through, with no block left, may be retired.
pub fn through_may_retire()
    ensures { ThroughMayRetire }
{}

/// Past its stored size an image has no byte but those of its own live entries.
pub fn images_are_clean()
    ensures { ImagesAreClean }
{}

/// A mounted core is fresh.
pub fn mounted_are_fresh()
    ensures { MountedAreFresh }
{}

/// A core all of whose entries are closed may drop its log, and is fresh.
pub fn rested_are_fresh()
    ensures { RestedAreFresh }
{}

/// Once the live entries of an image are brought home, one by one and in whatever order they may
/// come, the file is the one that the image recovers.
pub fn brought_home_are_recovered()
    ensures { BroughtHomeAreRecovered }
{}

/// A mount that takes each entry of an image home by a job ends in a fresh core.
pub fn brought_home_are_fresh()
    ensures { BroughtHomeAreFresh }
{}

/// Between the device steps of an event, too, the images are those of one core: of the core before,
/// of the core after, or of a failed event that is named.
pub fn moments_are_named()
    ensures { MomentsAreNamed }
{}

/// So a crash at such a moment recovers the file after the log of one of these cores, and then its
/// request in doubt where that gate is open.
pub fn moments_recover()
    ensures { MomentsRecover }
{}

/// Once the steps of an event were made, the images are those of the core after it.
pub fn changes_make_the_core()
    ensures { ChangesMakeTheCore }
{}

/// Each of the cores that are named for the moments of an event is one that the laws hold of.
pub fn named_are_reached()
    ensures { NamedAreReached }
{}
