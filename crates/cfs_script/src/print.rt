//! Printing a script.

ghost use Rattle.std.specs.Prelude.{◌≡◌, ◌++◌, ◌∷◌, map, OnOk, IfOk, IfErr};
ghost use Rattle.std.specs.Fmt.{decimal};
ghost use Rattle.cfs_words.specs.Parts.{joined};
ghost use Rattle.cfs_script.specs.Printing.{form_printed, has_mode, lines_text, renumbered};
ghost use Rattle.cfs_script.specs.Script.{IsLawful, IsScript};
ghost use Rattle.cfs_script.specs.declared.command.Command.{Command};
ghost use Rattle.cfs_script.specs.declared.command.Command.TheVariants as commands;

use crate::{Form, Script, ScriptRefusal, read_play, read_run};
use cfs_file::{Bytes, NoMemory};
use cfs_words::{
    print_first, print_key, print_mode, print_number, print_numbers, print_opening, print_path,
    print_payload, print_target, print_whence,
};
use std::alloc::Global;

/// Adds a form's line, without its end.
fn print_form(alloc: Global, text: &mut Vec<u8>, form: &Form) -> Result<(), NoMemory>
    requires { has_mode form.now }
    ensures { OnOk result (text.new.items ≡ text.old.items ++ form_printed form.now) }
{
    match form {
        Form::Open {
            caller,
            path,
            flags,
            mode,
        } => {
            print_request(text, *caller, b"open", &[])?;
            print_path(text, path)?;
            print_opening(text, *flags, *mode)
        }
        Form::Mkdir { caller, path, mode } => {
            print_request(text, *caller, b"mkdir", &[])?;
            print_path(text, path)?;
            print_mode(text, *mode)
        }
        Form::Unlink { caller, path } => {
            print_request(text, *caller, b"unlink", &[])?;
            print_path(text, path)
        }
        Form::Rmdir { caller, path } => {
            print_request(text, *caller, b"rmdir", &[])?;
            print_path(text, path)
        }
        Form::Rename { caller, from, to } => {
            print_request(text, *caller, b"rename", &[])?;
            print_path(text, from)?;
            print_path(text, to)
        }
        Form::Read { caller, fd, count } => print_request(
            text,
            *caller,
            b"read",
            &[*fd as u64, *count],
        ),
        Form::Write { caller, fd, bytes } => {
            print_request(text, *caller, b"write", &[*fd as u64])?;
            print_payload(alloc, text, bytes)
        }
        Form::Pread {
            caller,
            fd,
            offset,
            count,
        } => print_request(text, *caller, b"pread", &[*fd as u64, *offset, *count]),
        Form::Pwrite {
            caller,
            fd,
            offset,
            bytes,
        } => {
            print_request(text, *caller, b"pwrite", &[*fd as u64, *offset])?;
            print_payload(alloc, text, bytes)
        }
        Form::TryPwrite {
            caller,
            fd,
            offset,
            bytes,
        } => {
            print_request(text, *caller, b"try_pwrite", &[*fd as u64, *offset])?;
            print_payload(alloc, text, bytes)
        }
        Form::Lseek { caller, fd, seek } => {
            print_request(text, *caller, b"lseek", &[*fd as u64])?;
            print_whence(text, *seek)
        }
        Form::Ftruncate { caller, fd, len } => print_request(
            text,
            *caller,
            b"ftruncate",
            &[*fd as u64, *len],
        ),
        Form::Close { caller, fd } => print_request(text, *caller, b"close", &[*fd as u64]),
        Form::Fsync { caller, fd } => print_request(text, *caller, b"fsync", &[*fd as u64]),
        Form::Post {
            caller,
            fd,
            offset,
            count,
        } => print_request(text, *caller, b"post", &[*fd as u64, *offset, *count]),
        Form::Serve { caller, fd, place } => print_request(
            text,
            *caller,
            b"serve",
            &[*fd as u64, *place],
        ),
        Form::Dispatch { ino, place } => print_order(text, b"dispatch", &[*ino, *place]),
        Form::Apply { ino, place } => print_order(text, b"apply", &[*ino, *place]),
        Form::Finish { ino, place } => print_order(text, b"finish", &[*ino, *place]),
        Form::Skip { ino, place } => print_order(text, b"skip", &[*ino, *place]),
        Form::Trim { ino } => print_order(text, b"trim", &[*ino]),
        Form::Settle { ino } => print_order(text, b"settle", &[*ino]),
        Form::Turn => print_order(text, b"turn", &[]),
        Form::Drain => print_order(text, b"drain", &[]),
        Form::Caller { caller, uid, gid } => print_order(
            text,
            b"caller",
            &[*caller, *uid as u64, *gid as u64],
        ),
        Form::Queue { caller, fd } => print_order(text, b"queue", &[*caller, *fd as u64]),
        Form::Stop { step } => print_order(text, b"stop", &[*step]),
        Form::Crash { pick } => print_order(text, b"crash", &[*pick]),
        Form::Mount => print_order(text, b"mount", &[]),
        Form::Fail { device, step } => {
            print_order(text, b"fail", &[])?;
            print_target(text, *device)?;
            print_number(text, *step)
        }
        Form::FailRead { device, step } => {
            print_order(text, b"failread", &[])?;
            print_target(text, *device)?;
            print_number(text, *step)
        }
        Form::Cut { step, pick } => print_order(text, b"cut", &[*step, *pick]),
    }
}

/// Adds a caller's number, a verb, and numbers.
fn print_request(
    text: &mut Vec<u8>,
    caller: u64,
    verb: &[u8],
    numbers: &[u64],
) -> Result<(), NoMemory>
    ensures { OnOk result (text.new.items ≡ text.old.items
        ++ joined 32 (decimal caller ∷ verb.now ∷ map (λ n. decimal n) numbers.now)) }
{
    print_first(text, caller)?;
    print_key(text, verb)?;
    print_numbers(text, numbers)
}

/// Adds an order, and numbers.
fn print_order(text: &mut Vec<u8>, order: &[u8], numbers: &[u64]) -> Result<(), NoMemory>
    ensures { OnOk result (text.new.items ≡ text.old.items
        ++ joined 32 (order.now ∷ map (λ n. decimal n) numbers.now)) }
{
    text.extend_from_slice(order)?;
    print_numbers(text, numbers)
}

/// The canonical text of a script: one line a form, each ended by its byte 10, with numbers in
/// decimal and bytes in hexadecimal. Takes time linear in the text.
///
/// The text is a script again, of the same command: its lines are the same forms in the same order,
/// numbered from 1.
pub fn print_script(alloc: Global, script: &Script) -> Result<Bytes, NoMemory>
    ensures text { IfOk result (λ text. text ≡ lines_text script.now) }
    ensures again { IfOk result (λ text. (command : Command) → IsLawful command script.now →
        IsScript command text (renumbered 1 script.now)) }
{
    let mut text = Vec::new(alloc);
    'lines: for line in script.lines() {
        print_form(alloc, &mut text, &line.form)?;
        text.push(b'\n')?;
    }
    Ok(Bytes::from_vec(text))
}

/// A script of `play`, printed and read again: the same forms in the same order, numbered from 1.
pub fn print_and_read_play(alloc: Global, script: &Script) -> Result<Script, ScriptRefusal>
    requires { IsLawful commands.Play script.now }
    ensures again { IfOk result (λ read. read ≡ renumbered 1 script.now) }
    ensures never { IfErr result (λ refusal. refusal ≡ ScriptRefusal.NoMemory) }
{
    let text = print_script(alloc, script)?;
    let read = read_play(alloc, text.as_slice())?;
    Ok(read)
}

/// A script of `run`, printed and read again: the same forms in the same order, numbered from 1.
pub fn print_and_read_run(alloc: Global, script: &Script) -> Result<Script, ScriptRefusal>
    requires { IsLawful commands.Run script.now }
    ensures again { IfOk result (λ read. read ≡ renumbered 1 script.now) }
    ensures never { IfErr result (λ refusal. refusal ≡ ScriptRefusal.NoMemory) }
{
    let text = print_script(alloc, script)?;
    let read = read_run(alloc, text.as_slice())?;
    Ok(read)
}
