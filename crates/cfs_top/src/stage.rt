//! Which scripts the program serves yet.

ghost use Rattle.std.specs.Prelude.{◌≡◌};
ghost use Rattle.cfs_top.specs.Stage.{are_served, is_a, is_rwc, is_served, is_transfer};

use cfs_dir::Path;
use cfs_script::{Form, Line};
use cfs_words::Flags;

/// The last offset at which a transfer may begin, in bytes.
const LAST_OFFSET: u64 = 1_044_480;

/// The most bytes that one transfer may move.
const MOST_BYTES: u64 = 4096;

/// Whether the program serves a script of these lines: caller 1, `/a`, and transfers over it.
pub(crate) fn are_served(lines: &[Line]) -> bool
    ensures { result ≡ are_served 0 lines.now }
{
    'lines: for (before, line) in lines.iter().enumerate() {
        if !is_served(before, &line.form) {
            return false;
        }
    }
    true
}

/// Whether the program serves this behind so many lines.
fn is_served(before: usize, form: &Form) -> bool
    ensures { result ≡ is_served before form.now }
{
    match form {
        Form::Caller { caller, uid, gid } => {
            before == 0 && *caller == 1 && *uid == 10 && *gid == 10
        }
        Form::Open {
            caller,
            path,
            flags,
            mode,
        } => before == 1 && *caller == 1 && is_a(path) && is_rwc(*flags) && *mode == 0o644,
        Form::Pwrite {
            caller,
            fd,
            offset,
            bytes,
        } => {
            let count = bytes.len() as u64;
            is_transfer(before, *caller, *fd, *offset) && 1 <= count && count <= MOST_BYTES
        }
        Form::Pread {
            caller,
            fd,
            offset,
            count,
        } => is_transfer(before, *caller, *fd, *offset) && *count <= MOST_BYTES,
        _ => false,
    }
}

/// Whether a transfer of this caller over this descriptor may begin at the offset, behind so many
/// lines.
fn is_transfer(before: usize, caller: u64, fd: u32, offset: u64) -> bool
    ensures { result ≡ is_transfer before caller fd offset }
{
    before >= 2 && caller == 1 && fd == 0 && offset <= LAST_OFFSET
}

/// Whether the path is `/a`.
fn is_a(path: &Path) -> bool
    ensures { result ≡ is_a path.now }
{
    match path.names() {
        [name] => name.as_bytes() == b"a".as_slice(),
        _ => false,
    }
}

/// Whether the flags are `rwc`.
fn is_rwc(flags: Flags) -> bool
    ensures { result ≡ is_rwc flags }
{
    flags.read && flags.write && flags.create && !flags.exclusive && !flags.append
}
