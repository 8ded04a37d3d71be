//! What comes before and behind the requests: callers, their files, and the end.

ghost use Rattle.std.specs.Prelude.{◌≡◌, ◌++◌, ◌≤◌, IfOk, OnOk};
ghost use Rattle.std.specs.List.{flat_map};
ghost use Rattle.cfs_gen.specs.Workload.{all_callers, closed, file_opened, file_path, introduced, opened};

use crate::draft::Draft;
use cfs_dir::{Path, PathRefusal};
use cfs_file::NoMemory;
use cfs_script::Form;
use cfs_words::Flags;
use std::alloc::Global;

/// The callers of a workload.
const CALLERS: [u64; 8] = [1, 2, 3, 4, 5, 6, 7, 8];

/// How each file is opened.
const FLAGS: Flags = Flags {
    read: true,
    write: true,
    create: true,
    exclusive: false,
    append: false,
};

/// The mode of each file.
const MODE: u16 = 0o644;

/// Adds a `caller` line for each caller, all of user and group 0.
pub(crate) fn introduce_callers(draft: &mut Draft) -> Result<(), NoMemory>
    ensures { OnOk result (draft.new ≡ draft.old ++ flat_map introduced all_callers) }
{
    'callers: for caller in CALLERS {
        draft.push(Form::Caller {
            caller,
            uid: 0,
            gid: 0,
        })?;
    }
    Ok(())
}

/// Adds what each caller opens.
pub(crate) fn open_files(alloc: Global, draft: &mut Draft) -> Result<(), NoMemory>
    ensures { OnOk result (draft.new ≡ draft.old ++ flat_map opened all_callers) }
{
    'callers: for caller in CALLERS {
        open_both(alloc, draft, caller)?;
    }
    Ok(())
}

/// Adds what a caller opens: a file of its own, and then the one of all.
fn open_both(alloc: Global, draft: &mut Draft, caller: u64) -> Result<(), NoMemory>
    requires { caller ≤ 8 }
    ensures { OnOk result (draft.new ≡ draft.old ++ opened caller) }
{
    draft.push(opening(alloc, caller, caller as u8)?)?;
    draft.push(opening(alloc, caller, 0)?)?;
    Ok(())
}

/// The form that opens a file.
fn opening(alloc: Global, caller: u64, file: u8) -> Result<Form, NoMemory>
    requires { file ≤ 8 }
    ensures { IfOk result (λ form. form ≡ file_opened caller file) }
{
    let path = file_path(alloc, file)?;
    Ok(Form::Open {
        caller,
        path,
        flags: FLAGS,
        mode: MODE,
    })
}

/// The path `/g0` to `/g8`.
fn file_path(alloc: Global, file: u8) -> Result<Path, NoMemory>
    requires { file ≤ 8 }
    ensures { IfOk result (λ path. path ≡ file_path file) }
{
    match Path::parse(alloc, &[b'/', b'g', b'0' + file]) {
        Ok(path) => Ok(path),
        Err(PathRefusal::NoMemory) => Err(NoMemory),
        Err(PathRefusal::Malformed) => unreachable!(),
    }
}

/// Adds what each caller closes: its own file, and then the one of all.
pub(crate) fn close_files(draft: &mut Draft) -> Result<(), NoMemory>
    ensures { OnOk result (draft.new ≡ draft.old ++ flat_map closed all_callers) }
{
    'callers: for caller in CALLERS {
        draft.push(Form::Close { caller, fd: 0 })?;
        draft.push(Form::Close { caller, fd: 1 })?;
    }
    Ok(())
}
