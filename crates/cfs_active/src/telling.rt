//! What is told of an inode.

ghost use Rattle.std.specs.Prelude.{◌≡◌, is_some, length};
ghost use Rattle.cfs_tracker.specs.Listing.{listing};
ghost use Rattle.cfs_tracker.specs.Work.{next_work};

use crate::active::ActiveInode;
use cfs_tracker::{Listed, Work};

impl ActiveInode {
    ghost use Rattle.cfs_active.specs.View.{active_view};

    /// The inode number.
    pub fn ino(&self) -> u64
        ensures { result ≡ (active_view self.now).state.ino }
    {
        self.state.ino()
    }

    /// The length of the file after the log, in bytes.
    pub fn length(&self) -> u64
        ensures { result ≡ (active_view self.now).state.tracker.long }
    {
        self.state.length()
    }

    /// How many places were given.
    pub fn count(&self) -> u64
        ensures { result ≡ (active_view self.now).state.tracker.count }
    {
        self.state.count()
    }

    /// Whether a request is in doubt: its admission failed at its gate.
    pub fn is_in_doubt(&self) -> bool
        ensures { result ≡
            is_some (active_view self.now).state.tracker.doubt }
    {
        self.state.is_in_doubt()
    }

    /// How many jobs are out.
    pub fn jobs_out(&self) -> usize
        ensures { result ≡ length (active_view self.now).jobs }
    {
        self.jobs.len()
    }

    /// The first change of a grant behind a place, with what becomes of it: of those that are
    /// admitted, else the request in doubt.
    pub fn listing(&self, grant: u64, after: u64) -> Option<Listed>
        ensures { result ≡
            listing (active_view self.now).state.tracker grant after }
    {
        self.state.listing(grant, after)
    }

    /// The first place behind `after` of a no-op, or of a change that a job may take.
    pub fn next_work(&self, after: u64) -> Option<Work>
        ensures { result ≡
            next_work (active_view self.now).state.tracker after }
    {
        self.state.next_work(after)
    }
}
