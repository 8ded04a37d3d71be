//! What a line of a script answers.

use crate::{Entries, Places};
use cfs_dir::Posix;
use cfs_file::Bytes;

/// An answer as it is printed, behind the number of its line.
#[derive(Debug, Drop)]
pub enum Printed {
    /// `ok ns=P fd=F ino=I`: of open.
    Opened {
        place: u64,
        fd: u32,
        ino: u64,
    },
    /// `ok ns=P ino=I`: of mkdir.
    Made {
        place: u64,
        ino: u64,
    },
    /// `ok ns=P`: of close, unlink, rmdir and rename.
    Named {
        place: u64,
    },
    /// `ok ino=I place=P off=O n=N`: of a write.
    Wrote {
        ino: u64,
        place: u64,
        offset: u64,
        count: u64,
    },
    /// `ok n=0`: of a write of no bytes.
    WroteNothing,
    /// `ok ino=I place=P`: of ftruncate, fsync, post, a served sync, and a turn.
    Placed {
        ino: u64,
        place: u64,
    },
    /// `ok off=O`: of lseek.
    Sought {
        offset: u64,
    },
    /// `ok left=K`: of dispatch and apply.
    Left {
        blocks: u64,
    },
    /// `ok`.
    Fine,
    /// `ok more`: of finish, where blocks are left.
    More,
    /// `unfinished left=K`: of finish.
    Unfinished {
        blocks: u64,
    },
    /// `ok freed=K`: of trim.
    Freed {
        blocks: u64,
    },
    /// `ok turns=K freed=F`: of drain.
    Drained {
        turns: u64,
        blocks: u64,
    },
    /// `ok replayed=K`: of mount.
    Replayed {
        entries: u64,
    },
    /// `EMFILE queues=Q`: no queue is free.
    NoQueue {
        queues: u64,
    },
    /// `ENFILE records=256`: no record is free.
    NoRecord,
    /// `ENFILE next=4294967296`: no inode number is left.
    NoNumber,
    /// `ENOSPC need=K free=F`: too few blocks are free.
    Short {
        need: u64,
        free: u64,
    },
    /// `EIO`: a device failed.
    Faulty,
    /// `ENOMEM`: want of memory in a run.
    NoMemory,
    /// `pending on=Q`: a place that is waited for.
    Pending {
        on: u64,
    },
    /// `pending ino=I place=P on=Q`: admitted, to be served later.
    PendingRead {
        ino: u64,
        place: u64,
        on: u64,
    },
    /// `none`: there is nothing of that kind.
    Nothing,
    /// `stopped`: the power is off.
    Stopped,
    /// `unmounted`.
    Unmounted,
    /// `mounted`: of mount, while mounted.
    Mounted,
    /// `ok ino=I place=P n=N h:HEX`: of a read.
    Got {
        ino: u64,
        place: u64,
        bytes: Bytes,
    },
    /// `ok` and one word per entry, its place and its letter: of queue.
    Queued {
        entries: Entries,
    },
    /// An error's name alone.
    Refused {
        error: Posix,
    },
    /// An error's name and `at=P`: of the tree after so many namespace requests.
    RefusedAt {
        error: Posix,
        place: u64,
    },
    /// `EAGAIN places=P1,..,Pk`: the places that hold the queue's slots.
    Full {
        places: Places,
    },
}
