//! The history of a block, which takes no room at run time.
ghost use Rattle.std.specs.Prelude.{◌≡◌, [], ◌∷◌};
ghost use Rattle.cfs_block.specs.BlockImages.{ranged, tagged, flushed, stalled};

use std::marker::Model;
use std::mem;
use std::snapshot::Snapshot;

/// The content after each writing step of a block. Contracts alone read it, as a list of
/// `BlockStep`, the newest first.
#[derive(Drop)]
pub struct BlockHistory {
    past: Snapshot<Past>,
}

/// One step, with the tag and the bytes after it, and the steps before it.
#[derive(Drop)]
enum Past {
    Start,
    Ranged(usize, usize, u64, Snapshot<Vec<u8>>, Snapshot<Past>),
    Tagged(u64, u64, Snapshot<Vec<u8>>, Snapshot<Past>),
    Flushed(u64, Snapshot<Vec<u8>>, Snapshot<Past>),
    Stalled(u64, Snapshot<Vec<u8>>, Snapshot<Past>),
}

impl Model for BlockHistory {
    ghost use Rattle.std.specs.Prelude.{List};
    ghost use Rattle.cfs_block.specs.BlockImages.{BlockStep};

    ghost Value = { List BlockStep };

    ghost use Rattle.cfs_block.specs.Log.{block_steps};

    ghost view = { λ h. block_steps h.past.value };
}

impl BlockHistory {
    /// Begins with this content, as the only one that a crash may leave.
    pub fn of(tag: u64, bytes: &Vec<u8>) -> BlockHistory
        ensures { result ≡ flushed record { tag = tag; bytes = bytes.now.items } ∷ [] }
    {
        BlockHistory {
            past: Snapshot::of(&Past::Flushed(
                tag,
                Snapshot::of(bytes),
                Snapshot::of(&Past::Start),
            )),
        }
    }

    /// Notes a write of `len` bytes from `from` on, or one that failed, with the content after it.
    #[inline]
    pub fn range(&mut self, from: usize, len: usize, tag: u64, bytes: &Vec<u8>)
        ensures { self.new ≡
            ranged from len record { tag = tag; bytes = bytes.now.items } ∷ self.old }
    {
        let before = mem::replace(&mut self.past, Snapshot::of(&Past::Start));
        self.past = Snapshot::of(&Past::Ranged(from, len, tag, Snapshot::of(bytes), before));
    }

    /// Notes a tag that was asked for, with the content after it.
    #[inline]
    pub fn tag(&mut self, asked: u64, tag: u64, bytes: &Vec<u8>)
        ensures { self.new ≡ tagged asked record { tag = tag; bytes = bytes.now.items } ∷ self.old }
    {
        let before = mem::replace(&mut self.past, Snapshot::of(&Past::Start));
        self.past = Snapshot::of(&Past::Tagged(asked, tag, Snapshot::of(bytes), before));
    }

    /// Notes a flush that succeeded, with the content after it.
    #[inline]
    pub fn flush(&mut self, tag: u64, bytes: &Vec<u8>)
        ensures { self.new ≡ flushed record { tag = tag; bytes = bytes.now.items } ∷ self.old }
    {
        let before = mem::replace(&mut self.past, Snapshot::of(&Past::Start));
        self.past = Snapshot::of(&Past::Flushed(tag, Snapshot::of(bytes), before));
    }

    /// Notes a flush that failed, with the content after it.
    #[inline]
    pub fn stall(&mut self, tag: u64, bytes: &Vec<u8>)
        ensures { self.new ≡ stalled record { tag = tag; bytes = bytes.now.items } ∷ self.old }
    {
        let before = mem::replace(&mut self.past, Snapshot::of(&Past::Start));
        self.past = Snapshot::of(&Past::Stalled(tag, Snapshot::of(bytes), before));
    }
}
