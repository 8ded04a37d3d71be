//! Reads and syncs are admitted and dropped.

ghost use Rattle.std.specs.Prelude.{◌≡◌, ◌+◌, ◌<◌, ◌^◌, [], ◌∷◌, None, is_some, true};
ghost use Rattle.cfs_core.specs.declared.event.Event.TheVariants as events;
ghost use Rattle.cfs_core.specs.May.{is_query};
ghost use Rattle.cfs_tracker.specs.Reads.{reading};
ghost use Rattle.cfs_tracker.specs.View.{read_at};
ghost use Rattle.cfs_inode.specs.Reads.{with_read, without_read};

use crate::active::ActiveInode;
use cfs_file::Request;
use cfs_tracker::Reading;

impl ActiveInode {
    ghost use Rattle.cfs_active.specs.Admits.{ReadMakes};
    ghost use Rattle.cfs_active.specs.Makes.{QuietlyMakes};
    ghost use Rattle.cfs_active.specs.View.{active_view, query_room, with_state};

    /// The read or sync of a place that is not answered yet.
    pub fn read(&self, place: u64) -> Option<Reading>
        ensures { result ≡
            read_at (active_view self.now).state.tracker.reads place }
    {
        self.state.read(place)
    }

    /// A read or a sync takes the next place. No device is asked for a step.
    pub fn admit_read(&mut self, request: &Request) -> Reading
        requires query { is_query request.now ≡ true }
        requires places { (active_view self.old).state.tracker.count + 1
            < 2 ^ 64 }
        requires room { 0 < query_room self.old }
        ensures reading { result ≡
            reading request.now (active_view self.old).state.tracker }
        ensures view { active_view self.new ≡
            with_state (with_read request.now) (active_view self.old) }
        ensures makes { ReadMakes request.now (active_view self.old)
            (active_view self.new) }
    {
        self.state.admit_read(request)
    }

    /// The read or sync at a place is dropped. No device is asked for a step.
    pub fn drop_read(&mut self, place: u64)
        requires { is_some (read_at
            (active_view self.old).state.tracker.reads place) ≡ true }
        ensures view { active_view self.new ≡
            with_state (without_read place) (active_view self.old) }
        ensures makes { QuietlyMakes (events.Serve place None ∷ [])
            (active_view self.old)
            (active_view self.new) }
    {
        self.state.drop_read(place);
    }
}
