//! What the words and bytes of a store say of one inode.
//!
//! `specs/Store.antt` says which file a store keeps for an inode, stored and recovered;
//! `specs/Depicts.antt` when a store is an image of a core. `recover` is the plain and slow program
//! of these definitions; the other functions are laws: they do nothing, and their contracts hold of
//! all stores.
#![tactic(auto)]

mod recovery;

ghost use Rattle.cfs_medium.specs.Laws.{BlocksMayChange, BlocksMayCome, BlocksOfOthersStay, DepictedStoresRecover, EmptyStoresDepict, FittingRemainsRecover, GatesMayClose, HeadsMayBeSet, RunsAreRecovered, ShownWorldsRecover, ShutSlotsShow, SizesMayBeSet, SlotsMayCome, SlotsOfOthersStay, TagsAreApart};
ghost use Rattle.cfs_medium.specs.SizeEvents.{SizesShow};
ghost use Rattle.cfs_medium.specs.QuietEvents.{BacksShow, QuietEventsShow, ReadsMayCome};
ghost use Rattle.cfs_medium.specs.BlockEvents.{FlushesShow, TagsShow, TrimsShow, WritesShow};
ghost use Rattle.cfs_medium.specs.SlotEvents.{AdmissionsShow, MarksShow, RetiresShow, SettlesShow, SkipsShow};

pub use recovery::{BlockFound, recover};

/// A store that depicts an image stores and recovers what the image does.
pub fn depicted_stores_recover()
    ensures { DepictedStoresRecover }
{}

/// After every run, a store that depicts an image of the core recovers the file after the log, and
/// then the request in doubt exactly where its gate is open.
pub fn runs_are_recovered()
    ensures { RunsAreRecovered }
{}

/// What happens in the slots of other inodes changes no live entry of this one.
pub fn slots_of_others_stay()
    ensures { SlotsOfOthersStay }
{}

/// What happens in the blocks of other inodes changes no byte of this one's stored file.
pub fn blocks_of_others_stay()
    ensures { BlocksOfOthersStay }
{}

/// Tags of different inodes differ, and no inode has the tag of a free block.
pub fn tags_are_apart()
    ensures { TagsAreApart }
{}

/// What fits a good core recovers the file after its log, and then the request in doubt exactly
/// where its gate was left open.
pub fn fitting_remains_recover()
    ensures { FittingRemainsRecover }
{}

/// So where the devices of an inode show a good core, a crash leaves that file, whatever it leaves.
pub fn shown_worlds_recover()
    ensures { ShownWorldsRecover }
{}

/// The head of the slots at a number may have a word set, where each image of them fits another
/// core: whatever a crash leaves at any moment recovers that core's file, and behind the call the
/// devices show it.
pub fn heads_may_be_set()
    ensures { HeadsMayBeSet }
{}

/// A gate that may be open or closed may be closed, whether that fails or not.
pub fn gates_may_close()
    ensures { GatesMayClose }
{}

/// Slots whose gate is closed in every image show a core that knows it closed.
pub fn shut_slots_show()
    ensures { ShutSlotsShow }
{}

/// The block of a file block may have its tag set, bytes written or be flushed, where each image of
/// it fits another core: the same holds then.
pub fn blocks_may_change()
    ensures { BlocksMayChange }
{}

/// And so the size word may be set.
pub fn sizes_may_be_set()
    ensures { SizesMayBeSet }
{}

/// Slots that no image has open may go, and others may come in their place, without a step.
pub fn slots_may_come()
    ensures { SlotsMayCome }
{}

/// And so may a block that no image has tagged.
pub fn blocks_may_come()
    ensures { BlocksMayCome }
{}

/// The gate of a no-op may be closed, and the devices show it skipped.
pub fn skips_show()
    ensures { SkipsShow }
{}

/// The gate of the request in doubt may be closed, and the devices show it settled.
pub fn settles_show()
    ensures { SettlesShow }
{}

/// The gate of a change may be opened with the next place, and the devices show it admitted, or in
/// doubt.
pub fn admissions_show()
    ensures { AdmissionsShow }
{}

/// A waiting entry may be marked, and the devices show it marked, or that it may be.
pub fn marks_show()
    ensures { MarksShow }
{}

/// A block past the stored size may be given up, and the devices show it free, or that it may be.
pub fn trims_show()
    ensures { TrimsShow }
{}

/// The size word may be set for a request that a job did, and the devices show the new size, or the
/// old one, or that it may be either.
pub fn sizes_show()
    ensures { SizesShow }
{}

/// The gate of a request whose bytes stand and whose size word is set may be closed, and the devices
/// show it retired, or that it may be.
pub fn retires_show()
    ensures { RetiresShow }
{}

/// A read may be served, a job given out, and one come back for the blocks that are left: the devices
/// show it without a step.
pub fn quiet_events_show()
    ensures { QuietEventsShow }
{}

/// A job may come back whose gate and size word are as they were.
pub fn backs_show()
    ensures { BacksShow }
{}

/// And so may a read or sync come.
pub fn reads_may_come()
    ensures { ReadsMayCome }
{}

/// What a job wrote into a block may be flushed, and the devices show it durable, or as it was.
pub fn flushes_show()
    ensures { FlushesShow }
{}

/// A block of zeros may be tagged, and the devices show it mapped, or that it may be.
pub fn tags_show()
    ensures { TagsShow }
{}

/// A job may write into a block, or fail to, and the devices show its bytes there, not yet durable.
pub fn writes_show()
    ensures { WritesShow }
{}

/// A store that has nothing of an inode depicts the core of an empty file.
pub fn empty_stores_depict()
    ensures { EmptyStoresDepict }
{}
