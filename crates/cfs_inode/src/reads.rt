//! Reads and syncs are admitted and dropped.

ghost use Rattle.std.specs.Prelude.{◌≡◌, ◌+◌, ◌<◌, ◌^◌, [], ◌∷◌, None, is_some, true, vec_capacity, vec_len};
ghost use Rattle.cfs_core.specs.declared.event.Event.TheVariants as events;
ghost use Rattle.cfs_core.specs.May.{is_query};
ghost use Rattle.cfs_tracker.specs.Reads.{reading};
ghost use Rattle.cfs_tracker.specs.View.{read_at};
ghost use Rattle.cfs_inode.specs.Reads.{QuietlyMakes, ReadMakes, with_read, without_read};
ghost use Rattle.cfs_inode.specs.View.{state_view};

use crate::state::InodeState;
use cfs_block::Block;
use cfs_file::Request;
use cfs_pmem::Region;
use cfs_tracker::Reading;

impl<R: Region + Drop, B: Block + Drop> InodeState<R, B> {
    /// The read or sync of a place that is not answered yet.
    pub fn read(&self, place: u64) -> Option<Reading>
        ensures { result ≡ read_at (state_view R.seen B.seen self.now).tracker.reads place }
    {
        self.tracker.read(place)
    }

    /// A read or a sync takes the next place. No device is asked for a step.
    pub fn admit_read(&mut self, request: &Request) -> Reading
        requires query { is_query request.now ≡ true }
        requires places { (state_view R.seen B.seen self.old).tracker.count + 1 < 2 ^ 64 }
        requires room { vec_len self.old.tracker.reads < vec_capacity self.old.tracker.reads }
        ensures reading { result ≡
            reading request.now (state_view R.seen B.seen self.old).tracker }
        ensures view { state_view R.seen B.seen self.new ≡
            with_read request.now (state_view R.seen B.seen self.old) }
        ensures makes { ReadMakes request.now (state_view R.seen B.seen self.old)
            (state_view R.seen B.seen self.new) }
    {
        self.tracker.admit_read(request)
    }

    /// The read or sync at a place is dropped. No device is asked for a step.
    pub fn drop_read(&mut self, place: u64)
        requires { is_some (read_at (state_view R.seen B.seen self.old).tracker.reads place)
            ≡ true }
        ensures view { state_view R.seen B.seen self.new ≡
            without_read place (state_view R.seen B.seen self.old) }
        ensures makes { QuietlyMakes (events.Serve place None ∷ [])
            (state_view R.seen B.seen self.old) (state_view R.seen B.seen self.new) }
    {
        self.tracker.dropped(place);
    }
}
