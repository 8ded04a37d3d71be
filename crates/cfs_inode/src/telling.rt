//! What a state tells of its file.

ghost use Rattle.std.specs.Prelude.{◌≡◌, is_some};
ghost use Rattle.cfs_tracker.specs.Listing.{listing};
ghost use Rattle.cfs_tracker.specs.Work.{next_work};
ghost use Rattle.cfs_inode.specs.View.{state_view};

use crate::state::InodeState;
use cfs_block::Block;
use cfs_pmem::Region;
use cfs_tracker::{Listed, Work};

impl<R: Region + Drop, B: Block + Drop> InodeState<R, B> {
    /// The length of the file after the log, in bytes.
    pub fn length(&self) -> u64
        ensures { result ≡ (state_view R.seen B.seen self.now).tracker.long }
    {
        self.tracker.length()
    }

    /// How many places were given.
    pub fn count(&self) -> u64
        ensures { result ≡ (state_view R.seen B.seen self.now).tracker.count }
    {
        self.tracker.count()
    }

    /// Whether a request is in doubt: its admission failed at its gate.
    pub fn is_in_doubt(&self) -> bool
        ensures { result ≡ is_some (state_view R.seen B.seen self.now).tracker.doubt }
    {
        self.tracker.is_in_doubt()
    }

    /// The first change of a grant behind a place, with what becomes of it: of those that are
    /// admitted, else the request in doubt.
    pub fn listing(&self, grant: u64, after: u64) -> Option<Listed>
        ensures { result ≡ listing (state_view R.seen B.seen self.now).tracker grant after }
    {
        self.tracker.listing(grant, after)
    }

    /// The first place behind `after` of a no-op, or of a change that a job may take.
    pub fn next_work(&self, after: u64) -> Option<Work>
        ensures { result ≡ next_work (state_view R.seen B.seen self.now).tracker after }
    {
        self.tracker.next_work(after)
    }
}
