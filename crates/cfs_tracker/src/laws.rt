//! What holds of a tracker beside its calls, as contracts of methods that do nothing.

ghost use Rattle.std.specs.Prelude.{◌≡◌, ◌<◌, ℕ, Bool, List, Option, Some, true};
ghost use Rattle.cfs_core.specs.declared.doubt.Doubt.{Doubt};
ghost use Rattle.cfs_core.specs.declared.event.Event.TheVariants as events;
ghost use Rattle.cfs_core.specs.declared.inode_core.Core.{Core};
ghost use Rattle.cfs_core.specs.Fresh.{IsFresh};
ghost use Rattle.cfs_core.specs.May.{may};
ghost use Rattle.cfs_core.specs.After.{after};
ghost use Rattle.cfs_tracker.specs.declared.pending.Pending.{Pending};
ghost use Rattle.cfs_tracker.specs.Follows.{Follows};
ghost use Rattle.cfs_tracker.specs.Least.{NoEntryIsLess, NoReadIsLess, NoneIsLessForReads};
ghost use Rattle.cfs_tracker.specs.Mark.{NamedMayBeMarked};
ghost use Rattle.cfs_tracker.specs.New.{IsLoaded};
ghost use Rattle.cfs_tracker.specs.View.{entry_at, view_of};

use crate::Tracker;

impl<S, D, B> Tracker<S, D, B> {
    /// A tracker that has the stored file and the blocks of a fresh core follows it.
    pub fn follows_fresh(&self)
        ensures { (core : Core) → IsFresh core → IsLoaded (view_of self.now) core →
            Follows (view_of self.now) core }
    {}

    /// A job's writes and flushes are made by who has the job, and no call tells of them: the
    /// tracker follows the core through them as it is.
    pub fn follows_jobs(&self)
        ensures writes { (core : Core) (place block : ℕ) (left : Option (List ℕ)) →
            Follows (view_of self.now) core →
            may core (events.BlockWrite place block left) ≡ true →
            Follows (view_of self.now) (after core (events.BlockWrite place block left)) }
        ensures flushes { (core : Core) (place block : ℕ) (ok : Bool) →
            Follows (view_of self.now) core → may core (events.Flush place block ok) ≡ true →
            Follows (view_of self.now) (after core (events.Flush place block ok)) }
    {}
    /// What `step` and `read_blocker` name first among what stands in the way has the least place.
    pub fn first_are_least(&self)
        ensures entries { (core : Core) → Follows (view_of self.now) core →
            NoEntryIsLess (view_of self.now) }
        ensures reads { (core : Core) → Follows (view_of self.now) core →
            NoReadIsLess (view_of self.now) }
        ensures for_reads { (core : Core) → Follows (view_of self.now) core →
            NoneIsLessForReads (view_of self.now) }
    {}
    /// The request in doubt has a number behind those of the pending entries.
    pub fn doubt_is_behind(&self)
        ensures { (core : Core) (place : ℕ) (entry : Pending S) (doubt : Doubt) →
            Follows (view_of self.now) core →
            entry_at (view_of self.now).entries place ≡ Some entry →
            core.doubt ≡ Some doubt → place < doubt.entry.place }
    {}
    /// What `next_mark` names may be marked, once its slots are out.
    pub fn named_may_be_marked(&self)
        ensures { (core : Core) → Follows (view_of self.now) core →
            NamedMayBeMarked (view_of self.now) }
    {}
}
