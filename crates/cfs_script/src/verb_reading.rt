//! Reading what follows a caller and a verb.

ghost use Rattle.std.specs.Prelude.{◌≡◌, ℕ};
ghost use Rattle.cfs_words.specs.Reading.{Gives};
ghost use Rattle.cfs_script.specs.Reading.{verb_read};
ghost use Rattle.cfs_script.specs.declared.verb.Verb.TheVariants as verbs;

use crate::Form;
use crate::verb::Verb;
use cfs_words::{WordRefusal, Words};
use std::alloc::Global;

/// Reads what follows the verb.
pub(crate) fn read_verb(
    alloc: Global,
    caller: u64,
    verb: Verb,
    words: &mut Words<'_>,
) -> Result<Form, WordRefusal>
    ensures { Gives (λ form. form) result (verb_read caller verb words.old) }
{
    match verb {
        Verb::Open => open(alloc, caller, words),
        Verb::Mkdir => mkdir(alloc, caller, words),
        Verb::Unlink => unlink(alloc, caller, words),
        Verb::Rmdir => rmdir(alloc, caller, words),
        Verb::Rename => rename(alloc, caller, words),
        Verb::Read => read(caller, words),
        Verb::Write => write(alloc, caller, words),
        Verb::Pread => pread(caller, words),
        Verb::Pwrite => pwrite(alloc, caller, words),
        Verb::TryPwrite => try_pwrite(alloc, caller, words),
        Verb::Lseek => lseek(caller, words),
        Verb::Ftruncate => ftruncate(caller, words),
        Verb::Close => close(caller, words),
        Verb::Fsync => fsync(caller, words),
        Verb::Post => post(caller, words),
        Verb::Serve => serve(caller, words),
    }
}

fn open(alloc: Global, caller: u64, words: &mut Words<'_>) -> Result<Form, WordRefusal>
    ensures { Gives (λ form. form) result (verb_read caller verbs.Open words.old) }
{
    let path = words.path(alloc)?;
    let (flags, mode) = words.opening()?;
    words.end()?;
    Ok(Form::Open {
        caller,
        path,
        flags,
        mode,
    })
}

fn mkdir(alloc: Global, caller: u64, words: &mut Words<'_>) -> Result<Form, WordRefusal>
    ensures { Gives (λ form. form) result (verb_read caller verbs.Mkdir words.old) }
{
    let path = words.path(alloc)?;
    let mode = words.mode()?;
    words.end()?;
    Ok(Form::Mkdir { caller, path, mode })
}

fn unlink(alloc: Global, caller: u64, words: &mut Words<'_>) -> Result<Form, WordRefusal>
    ensures { Gives (λ form. form) result (verb_read caller verbs.Unlink words.old) }
{
    let path = words.path(alloc)?;
    words.end()?;
    Ok(Form::Unlink { caller, path })
}

fn rmdir(alloc: Global, caller: u64, words: &mut Words<'_>) -> Result<Form, WordRefusal>
    ensures { Gives (λ form. form) result (verb_read caller verbs.Rmdir words.old) }
{
    let path = words.path(alloc)?;
    words.end()?;
    Ok(Form::Rmdir { caller, path })
}

fn rename(alloc: Global, caller: u64, words: &mut Words<'_>) -> Result<Form, WordRefusal>
    ensures { Gives (λ form. form) result (verb_read caller verbs.Rename words.old) }
{
    let from = words.path(alloc)?;
    let to = words.path(alloc)?;
    words.end()?;
    Ok(Form::Rename { caller, from, to })
}

fn read(caller: u64, words: &mut Words<'_>) -> Result<Form, WordRefusal>
    ensures { Gives (λ form. form) result (verb_read caller verbs.Read words.old) }
{
    let fd = words.short_number()?;
    let count = words.any_number()?;
    words.end()?;
    Ok(Form::Read { caller, fd, count })
}

fn write(alloc: Global, caller: u64, words: &mut Words<'_>) -> Result<Form, WordRefusal>
    ensures { Gives (λ form. form) result (verb_read caller verbs.Write words.old) }
{
    let fd = words.short_number()?;
    let bytes = words.payload(alloc)?;
    words.end()?;
    Ok(Form::Write { caller, fd, bytes })
}

fn pread(caller: u64, words: &mut Words<'_>) -> Result<Form, WordRefusal>
    ensures { Gives (λ form. form) result (verb_read caller verbs.Pread words.old) }
{
    let fd = words.short_number()?;
    let offset = words.any_number()?;
    let count = words.any_number()?;
    words.end()?;
    Ok(Form::Pread {
        caller,
        fd,
        offset,
        count,
    })
}

fn pwrite(alloc: Global, caller: u64, words: &mut Words<'_>) -> Result<Form, WordRefusal>
    ensures { Gives (λ form. form) result (verb_read caller verbs.Pwrite words.old) }
{
    let fd = words.short_number()?;
    let offset = words.any_number()?;
    let bytes = words.payload(alloc)?;
    words.end()?;
    Ok(Form::Pwrite {
        caller,
        fd,
        offset,
        bytes,
    })
}

fn try_pwrite(alloc: Global, caller: u64, words: &mut Words<'_>) -> Result<Form, WordRefusal>
    ensures { Gives (λ form. form) result (verb_read caller verbs.TryPwrite words.old) }
{
    let fd = words.short_number()?;
    let offset = words.any_number()?;
    let bytes = words.payload(alloc)?;
    words.end()?;
    Ok(Form::TryPwrite {
        caller,
        fd,
        offset,
        bytes,
    })
}

fn lseek(caller: u64, words: &mut Words<'_>) -> Result<Form, WordRefusal>
    ensures { Gives (λ form. form) result (verb_read caller verbs.Lseek words.old) }
{
    let fd = words.short_number()?;
    let seek = words.whence()?;
    words.end()?;
    Ok(Form::Lseek { caller, fd, seek })
}

fn ftruncate(caller: u64, words: &mut Words<'_>) -> Result<Form, WordRefusal>
    ensures { Gives (λ form. form) result (verb_read caller verbs.Ftruncate words.old) }
{
    let fd = words.short_number()?;
    let len = words.any_number()?;
    words.end()?;
    Ok(Form::Ftruncate { caller, fd, len })
}

fn close(caller: u64, words: &mut Words<'_>) -> Result<Form, WordRefusal>
    ensures { Gives (λ form. form) result (verb_read caller verbs.Close words.old) }
{
    let fd = words.short_number()?;
    words.end()?;
    Ok(Form::Close { caller, fd })
}

fn fsync(caller: u64, words: &mut Words<'_>) -> Result<Form, WordRefusal>
    ensures { Gives (λ form. form) result (verb_read caller verbs.Fsync words.old) }
{
    let fd = words.short_number()?;
    words.end()?;
    Ok(Form::Fsync { caller, fd })
}

fn post(caller: u64, words: &mut Words<'_>) -> Result<Form, WordRefusal>
    ensures { Gives (λ form. form) result (verb_read caller verbs.Post words.old) }
{
    let fd = words.short_number()?;
    let offset = words.any_number()?;
    let count = words.any_number()?;
    words.end()?;
    Ok(Form::Post {
        caller,
        fd,
        offset,
        count,
    })
}

fn serve(caller: u64, words: &mut Words<'_>) -> Result<Form, WordRefusal>
    ensures { Gives (λ form. form) result (verb_read caller verbs.Serve words.old) }
{
    let fd = words.short_number()?;
    let place = words.any_number()?;
    words.end()?;
    Ok(Form::Serve { caller, fd, place })
}
