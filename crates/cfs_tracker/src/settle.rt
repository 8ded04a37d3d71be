//! The request in doubt is closed.

ghost use Rattle.std.specs.Prelude.{◌≡◌, None, true, is_some};
ghost use Rattle.cfs_core.specs.declared.event.Event.TheVariants as events;
ghost use Rattle.cfs_core.specs.declared.inode_core.Core.{Core};
ghost use Rattle.cfs_core.specs.May.{may};
ghost use Rattle.cfs_core.specs.After.{after};
ghost use Rattle.cfs_tracker.specs.Follows.{Follows};
ghost use Rattle.cfs_tracker.specs.Settle.{doubt_slots, settled, settling, unsettled};
ghost use Rattle.cfs_tracker.specs.View.{KeepsRoom, view_of};

use crate::Tracker;

impl<S: Drop, D: Drop, B: Drop> Tracker<S, D, B> {
    /// Whether a request is in doubt. Walks nothing, as all calls on it.
    pub fn is_in_doubt(&self) -> bool
        ensures { result ≡ is_some (view_of self.now).doubt }
    {
        self.doubt.is_some()
    }

    /// Takes the slots of the request in doubt out, to be closed; none exactly where nothing is in
    /// doubt with its slots. `settled` or `put_doubt` comes next.
    pub fn take_doubt(&mut self) -> Option<D>
        ensures slots { result ≡ doubt_slots (view_of self.old).doubt }
        ensures taken { view_of self.new ≡ settling (view_of self.old) }
        ensures room { KeepsRoom self.old self.new }
        ensures follows { (core : Core) → Follows (view_of self.old) core →
            Follows (view_of self.new) core }
    {
        match &mut self.doubt {
            Some(doubt) => doubt.slots.take(),
            None => None,
        }
    }

    /// The slots that `take_doubt` gave could not be closed, and come back.
    pub fn put_doubt(&mut self, slots: D)
        requires doubt { is_some (view_of self.old).doubt ≡ true }
        requires out { doubt_slots (view_of self.old).doubt ≡ None }
        ensures view { view_of self.new ≡ unsettled slots (view_of self.old) }
        ensures room { KeepsRoom self.old self.new }
        ensures follows { (core : Core) → Follows (view_of self.old) core →
            Follows (view_of self.new) core }
    {
        if let Some(doubt) = &mut self.doubt {
            doubt.slots = Some(slots);
        }
    }

    /// The slots that `take_doubt` gave were closed.
    pub fn settled(&mut self)
        requires doubt { is_some (view_of self.old).doubt ≡ true }
        requires out { doubt_slots (view_of self.old).doubt ≡ None }
        ensures view { view_of self.new ≡ settled (view_of self.old) }
        ensures room { KeepsRoom self.old self.new }
        ensures follows { (core : Core) → Follows (view_of self.old) core →
            (may core events.Settle ≡ true)
            × Follows (view_of self.new) (after core events.Settle) }
    {
        self.doubt = None;
    }
}
