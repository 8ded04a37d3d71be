//! What a line of a script asks for.

use cfs_dir::Path;
use cfs_file::Bytes;
use cfs_words::{Device, Flags, Seek};

/// The largest number of a caller; the first is 1 (own).
pub const CALLERS: u64 = 16;

/// What a line asks for. Offsets, lengths and counts are bytes, `fd` is a descriptor's number, and
/// `place` one in the order of a file's requests. Numbers are at most 4,294,967,295.
#[derive(Debug, Drop, PartialEq, Eq)]
pub enum Form {
    /// `C open PATH FLAGS` and `C open PATH FLAGS MODE`: opens a file, and makes it where its flags
    /// say so; `mode` is 0 where they don't (POSIX.1-2017, open()).
    Open {
        caller: u64,
        path: Path,
        flags: Flags,
        mode: u16,
    },
    /// `C mkdir PATH MODE`: makes a directory (POSIX.1-2017, mkdir()).
    Mkdir {
        caller: u64,
        path: Path,
        mode: u16,
    },
    /// `C unlink PATH`: removes a file (POSIX.1-2017, unlink()).
    Unlink {
        caller: u64,
        path: Path,
    },
    /// `C rmdir PATH`: removes an empty directory (POSIX.1-2017, rmdir()).
    Rmdir {
        caller: u64,
        path: Path,
    },
    /// `C rename PATH PATH`: moves a file or directory (POSIX.1-2017, rename()).
    Rename {
        caller: u64,
        from: Path,
        to: Path,
    },
    /// `C read FD N`: reads at the position (POSIX.1-2017, read()).
    Read {
        caller: u64,
        fd: u32,
        count: u64,
    },
    /// `C write FD DATA`: writes at the position (POSIX.1-2017, write()).
    Write {
        caller: u64,
        fd: u32,
        bytes: Bytes,
    },
    /// `C pread FD OFF N`: reads at an offset (POSIX.1-2017, pread()).
    Pread {
        caller: u64,
        fd: u32,
        offset: u64,
        count: u64,
    },
    /// `C pwrite FD OFF DATA`: writes at an offset (POSIX.1-2017, pwrite()).
    Pwrite {
        caller: u64,
        fd: u32,
        offset: u64,
        bytes: Bytes,
    },
    /// `C try_pwrite FD OFF DATA`: writes at an offset where that needs no waiting (own).
    TryPwrite {
        caller: u64,
        fd: u32,
        offset: u64,
        bytes: Bytes,
    },
    /// `C lseek FD set OFF` and `C lseek FD cur OFF`: moves the position (POSIX.1-2017, lseek()).
    Lseek {
        caller: u64,
        fd: u32,
        seek: Seek,
    },
    /// `C ftruncate FD N`: cuts or lengthens a file (POSIX.1-2017, ftruncate()).
    Ftruncate {
        caller: u64,
        fd: u32,
        len: u64,
    },
    /// `C close FD`: closes a descriptor (POSIX.1-2017, close()).
    Close {
        caller: u64,
        fd: u32,
    },
    /// `C fsync FD`: waits until what came before is kept (POSIX.1-2017, fsync()).
    Fsync {
        caller: u64,
        fd: u32,
    },
    /// `C post FD OFF N`: asks for a read, and does not wait for it (own).
    Post {
        caller: u64,
        fd: u32,
        offset: u64,
        count: u64,
    },
    /// `C serve FD PLACE`: waits for what was asked for (own).
    Serve {
        caller: u64,
        fd: u32,
        place: u64,
    },
    /// `dispatch INO PLACE`: hands out a job (own).
    Dispatch {
        ino: u64,
        place: u64,
    },
    /// `apply INO PLACE`: writes a block of a job (own).
    Apply {
        ino: u64,
        place: u64,
    },
    /// `finish INO PLACE`: takes a job back (own).
    Finish {
        ino: u64,
        place: u64,
    },
    /// `skip INO PLACE`: closes a request that nothing needs (own).
    Skip {
        ino: u64,
        place: u64,
    },
    /// `trim INO`: frees blocks (own).
    Trim {
        ino: u64,
    },
    /// `settle INO`: settles what is in doubt (own).
    Settle {
        ino: u64,
    },
    /// `turn`: one turn of a worker (own).
    Turn,
    /// `drain`: turns until there is no work, and then frees blocks (own).
    Drain,
    /// `caller C UID GID`: introduces a caller, with its user and group number.
    Caller {
        caller: u64,
        uid: u32,
        gid: u32,
    },
    /// `queue C FD`: lists the queue of a descriptor (own).
    Queue {
        caller: u64,
        fd: u32,
    },
    /// `stop N`: the power stops at the N-th writing step from here (own).
    Stop {
        step: u64,
    },
    /// `crash K`: the power fails, and pick K says what is left (own).
    Crash {
        pick: u64,
    },
    /// `mount`: mounts the devices again (own).
    Mount,
    /// `fail DEVICE K`: the K-th writing step of a device fails (own).
    Fail {
        device: Device,
        step: u64,
    },
    /// `failread DEVICE K`: the K-th reading step of a device fails (own).
    FailRead {
        device: Device,
        step: u64,
    },
    /// `cut N K`: a run stops at the N-th writing step and leaves what pick K says
    /// (own).
    Cut {
        step: u64,
        pick: u64,
    },
}
