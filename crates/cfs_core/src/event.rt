//! What happens to an inode.

use crate::{Flag, Image};
use cfs_file::{Bytes, Entry};

/// What became of the size word in a finish that failed.
#[derive(Clone, Copy, Debug, PartialEq, Eq)]
pub enum SizeEnd {
    /// It is as before.
    AsBefore,
    /// It is set in every image.
    Set,
    /// An image has what it had, or what was to be set.
    Either,
}

/// How a job ended.
#[derive(Clone, Copy, Debug, PartialEq, Eq)]
pub enum End {
    /// All is written: the size word is set and the gate is closed.
    Retired,
    /// Its blocks are done, and more are to come.
    More,
    /// It was put back or its finish failed: what became of the size word and of the gate, and
    /// whether the entry is applied.
    Back {
        size: SizeEnd,
        gate: Flag,
        applied: bool,
    },
}

/// One step of an inode. Places count from 1, blocks are those of the file, from 0. A step that is
/// not kept, or not ok, failed at its device.
#[derive(Drop)]
pub enum Event {
    /// A zero block is tagged for the file's block.
    Tag {
        block: u64,
        kept: bool,
    },
    /// A write, append or truncate is admitted under a grant. Not kept: it is in doubt.
    Admit {
        entry: Entry,
        grant: u64,
        kept: bool,
    },
    /// A read or a sync takes its place.
    AdmitRead {
        entry: Entry,
    },
    /// A read gives its bytes, a sync none; with no answer it is dropped.
    Serve {
        place: u64,
        answer: Option<Bytes>,
    },
    /// The entry is marked as a no-op, since the later one covers it.
    Mark {
        place: u64,
        by: u64,
        kept: bool,
    },
    /// A job takes the entry and its next blocks.
    Dispatch {
        place: u64,
    },
    /// The job writes its part of a block. Where it failed, `left` is what it left there.
    BlockWrite {
        place: u64,
        block: u64,
        left: Option<Bytes>,
    },
    /// The job flushes a block.
    Flush {
        place: u64,
        block: u64,
        ok: bool,
    },
    /// The job ends.
    Finish {
        place: u64,
        end: End,
    },
    /// The gate of a no-op is closed.
    Skip {
        place: u64,
    },
    /// The file's block, past the stored size, is given up.
    Trim {
        block: u64,
        kept: bool,
    },
    /// The gate of the request in doubt is closed.
    Settle,
    /// The power fails, and leaves that image.
    Crash {
        image: Image,
    },
    /// The image that a crash left is recovered.
    Mount,
}
