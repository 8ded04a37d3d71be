//! What is told of a record and of its file.

ghost use Rattle.std.specs.Prelude.{◌≡◌, is_some, length};
ghost use Rattle.cfs_block.specs.MemoryBlocks.{seen_of};
ghost use Rattle.cfs_active.specs.Memory.{words_seen};
ghost use Rattle.cfs_inode.specs.View.{state_view};
ghost use Rattle.cfs_tracker.specs.Listing.{listing};
ghost use Rattle.cfs_tracker.specs.View.{read_at};
ghost use Rattle.cfs_tracker.specs.Work.{next_work};
ghost use Rattle.cfs_granted.specs.View.{file_view, ino_in, life_view};

use crate::ending::Ending;
use crate::file_state::FileState;
use crate::life::Life;
use cfs_grants::Grants;
use cfs_tracker::{Listed, Reading, Work};

impl FileState {
    /// The inode number of the file that it has, also while that is being emptied. A free record
    /// has 0.
    pub fn ino(&self) -> u64
        ensures { result ≡ ino_in (file_view self.now) }
    {
        match self {
            FileState::Life(life) => life.ino(),
            FileState::Ending(ending) => ending.ino(),
            FileState::Free(_) | FileState::Moving => 0,
        }
    }
}

impl Ending {
    /// The inode number.
    pub fn ino(&self) -> u64
        ensures { result ≡ (state_view words_seen seen_of self.now.state).ino }
    {
        self.state.ino()
    }
}

impl Life {
    /// The inode number.
    pub fn ino(&self) -> u64
        ensures { result ≡ (life_view self.now).active.state.ino }
    {
        self.active.ino()
    }

    /// The grants that stand, each at its queue.
    pub fn grants(&self) -> &Grants
        ensures { result.now ≡ (life_view self.now).grants }
    {
        &self.grants
    }

    /// The length of the file after the log, in bytes.
    pub fn length(&self) -> u64
        ensures { result ≡ (life_view self.now).active.state.tracker.long }
    {
        self.active.length()
    }

    /// How many places were given.
    pub fn count(&self) -> u64
        ensures { result ≡ (life_view self.now).active.state.tracker.count }
    {
        self.active.count()
    }

    /// Whether a request is in doubt: its admission failed at its gate.
    pub fn is_in_doubt(&self) -> bool
        ensures { result ≡ is_some (life_view self.now).active.state.tracker.doubt }
    {
        self.active.is_in_doubt()
    }

    /// How many jobs are out.
    pub fn jobs_out(&self) -> usize
        ensures { result ≡ length (life_view self.now).active.jobs }
    {
        self.active.jobs_out()
    }

    /// The first change of a grant behind a place, with what becomes of it: of those that are
    /// admitted, else the request in doubt.
    pub fn listing(&self, grant: u64, after: u64) -> Option<Listed>
        ensures { result ≡ listing (life_view self.now).active.state.tracker grant after }
    {
        self.active.listing(grant, after)
    }

    /// The first place behind `after` of a no-op, or of a change that a job may take.
    pub fn next_work(&self, after: u64) -> Option<Work>
        ensures { result ≡ next_work (life_view self.now).active.state.tracker after }
    {
        self.active.next_work(after)
    }

    /// The read or sync of a place that is not answered yet.
    pub fn read(&self, place: u64) -> Option<Reading>
        ensures { result ≡ read_at (life_view self.now).active.state.tracker.reads place }
    {
        self.active.read(place)
    }
}
