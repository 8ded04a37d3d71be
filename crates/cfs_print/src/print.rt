//! The text of a line of output.

ghost use Rattle.std.specs.Prelude.{◌≡◌, ◌++◌, ◌∷◌, [], IfOk, OnOk};
ghost use Rattle.std.specs.String.{string_bytes};
ghost use Rattle.cfs_print.specs.Text.{answer_text, entry_pieces, error_name, letter_text, line_text, more_places, pieces_text};

use crate::{Letter, Listed, OutLine, Printed};
use cfs_dir::Posix;
use cfs_file::{Bytes, NoMemory};
use std::alloc::Global;
use std::fmt::Write;

/// The text of a line of output, its ending byte 10 included. Takes time linear in the text.
pub fn print_line(alloc: Global, line: &OutLine) -> Result<Bytes, NoMemory>
    ensures { IfOk result (λ text. text ≡ line_text line.now) }
{
    let number = line.number;
    let mut text = format!(in alloc; "{number} ")?;
    print_answer(alloc, &mut text, &line.answer)?;
    text.push_str("\n")?;
    Ok(Bytes::from_vec(text.into_bytes()))
}

/// Adds an answer.
fn print_answer(alloc: Global, text: &mut String, answer: &Printed) -> Result<(), NoMemory>
    ensures { OnOk result
        (string_bytes text.new ≡ string_bytes text.old ++ answer_text answer.now) }
{
    match answer {
        Printed::Opened { place, fd, ino } => write!(text, "ok ns={place} fd={fd} ino={ino}")?,
        Printed::Made { place, ino } => write!(text, "ok ns={place} ino={ino}")?,
        Printed::Named { place } => write!(text, "ok ns={place}")?,
        Printed::Wrote {
            ino,
            place,
            offset,
            count,
        } => write!(text, "ok ino={ino} place={place} off={offset} n={count}")?,
        Printed::WroteNothing => text.push_str("ok n=0")?,
        Printed::Placed { ino, place } => write!(text, "ok ino={ino} place={place}")?,
        Printed::Sought { offset } => write!(text, "ok off={offset}")?,
        Printed::Left { blocks } => write!(text, "ok left={blocks}")?,
        Printed::Fine => text.push_str("ok")?,
        Printed::More => text.push_str("ok more")?,
        Printed::Unfinished { blocks } => write!(text, "unfinished left={blocks}")?,
        Printed::Freed { blocks } => write!(text, "ok freed={blocks}")?,
        Printed::Drained { turns, blocks } => write!(text, "ok turns={turns} freed={blocks}")?,
        Printed::Replayed { entries } => write!(text, "ok replayed={entries}")?,
        Printed::NoQueue { queues } => write!(text, "EMFILE queues={queues}")?,
        Printed::NoRecord => text.push_str("ENFILE records=256")?,
        Printed::NoNumber => text.push_str("ENFILE next=4294967296")?,
        Printed::Short { need, free } => write!(text, "ENOSPC need={need} free={free}")?,
        Printed::Faulty => text.push_str("EIO")?,
        Printed::NoMemory => text.push_str("ENOMEM")?,
        Printed::Pending { on } => write!(text, "pending on={on}")?,
        Printed::PendingRead { ino, place, on } => write!(
            text,
            "pending ino={ino} place={place} on={on}"
        )?,
        Printed::Nothing => text.push_str("none")?,
        Printed::Stopped => text.push_str("stopped")?,
        Printed::Unmounted => text.push_str("unmounted")?,
        Printed::Mounted => text.push_str("mounted")?,
        Printed::Got { ino, place, bytes } => print_got(alloc, text, *ino, *place, bytes)?,
        Printed::Queued { entries } => print_entries(text, entries.as_slice())?,
        Printed::Refused { error } => text.push_str(error_name(*error))?,
        Printed::RefusedAt { error, place } => {
            text.push_str(error_name(*error))?;
            write!(text, " at={place}")?;
        }
        Printed::Full { places } => print_places(text, places.as_slice())?,
    }
    Ok(())
}

/// Adds the answer of a read.
fn print_got(
    alloc: Global,
    text: &mut String,
    ino: u64,
    place: u64,
    bytes: &Bytes,
) -> Result<(), NoMemory>
    ensures { OnOk result (string_bytes text.new ≡ string_bytes text.old
        ++ answer_text (Printed.Got ino place bytes.now)) }
{
    let count = bytes.len();
    write!(text, "ok ino={ino} place={place} n={count} h:")?;
    let digits = hex::encode(alloc, bytes.as_slice())?;
    text.push_str(digits.as_str())?;
    Ok(())
}

/// Adds the entries of a queue.
fn print_entries(text: &mut String, entries: &[Listed]) -> Result<(), NoMemory>
    ensures { OnOk result (string_bytes text.new ≡ string_bytes text.old
        ++ answer_text (Printed.Queued entries.now)) }
{
    text.push_str("ok")?;
    'entries: for entry in entries {
        print_entry(text, *entry)?;
    }
    Ok(())
}

/// Adds an entry of a queue, behind a space.
fn print_entry(text: &mut String, entry: Listed) -> Result<(), NoMemory>
    ensures { OnOk result (string_bytes text.new ≡ string_bytes text.old
        ++ pieces_text (entry_pieces (entry ∷ []))) }
{
    let place = entry.place;
    write!(text, " {place}")?;
    text.push_str(letter_text(entry.letter))?;
    Ok(())
}

/// The letter of how an entry stands.
fn letter_text(letter: Letter) -> &'static str
    ensures { result.now ≡ letter_text letter }
{
    match letter {
        Letter::Waiting => "w",
        Letter::Out => "o",
        Letter::Idle => "n",
        Letter::Doubtful => "d",
    }
}

/// The name of an error (POSIX.1-2017, System Interfaces, section 2.3).
fn error_name(error: Posix) -> &'static str
    ensures { result.now ≡ error_name error }
{
    match error {
        Posix::PermissionDenied => "EACCES",
        Posix::NotFound => "ENOENT",
        Posix::AlreadyExists => "EEXIST",
        Posix::NotADirectory => "ENOTDIR",
        Posix::IsADirectory => "EISDIR",
        Posix::DirectoryNotEmpty => "ENOTEMPTY",
        Posix::InvalidArgument => "EINVAL",
        Posix::NameTooLong => "ENAMETOOLONG",
        Posix::TooManyOpenFiles => "EMFILE",
        Posix::TooManyFiles => "ENFILE",
        Posix::BadDescriptor => "EBADF",
        Posix::FileTooLarge => "EFBIG",
    }
}

/// Adds the places that hold a queue's slots.
fn print_places(text: &mut String, places: &[u64]) -> Result<(), NoMemory>
    ensures { OnOk result (string_bytes text.new ≡ string_bytes text.old
        ++ answer_text (Printed.Full places.now)) }
{
    text.push_str("EAGAIN places=")?;
    if let [first, rest @ ..] = places {
        write!(text, "{first}")?;
        print_more(text, rest)?;
    }
    Ok(())
}

/// Adds places, each behind a comma.
fn print_more(text: &mut String, places: &[u64]) -> Result<(), NoMemory>
    ensures { OnOk result (string_bytes text.new ≡ string_bytes text.old
        ++ pieces_text (more_places places.now)) }
{
    'places: for place in places {
        write!(text, ",{place}")?;
    }
    Ok(())
}
