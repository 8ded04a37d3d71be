//! A line of output, and its text.

ghost use Rattle.std.specs.Prelude.{◌≡◌, IfOk};
ghost use Rattle.std.specs.String.{string_bytes};
ghost use Rattle.cfs_top.specs.Text.{answer_text, head_text, line_text};

use crate::printed::Printed;
use cfs_file::NoMemory;
use std::alloc::Global;
use std::fmt::Write;

/// What the line of that number answers.
#[derive(Debug, Drop, Clone, PartialEq, Eq)]
pub(crate) struct OutLine {
    pub(crate) number: u64,
    pub(crate) answer: Printed,
}

/// The text of a line of output, its ending byte 10 included.
pub(crate) fn print_line(alloc: Global, line: &OutLine) -> Result<String, NoMemory>
    ensures { IfOk result (λ text. string_bytes text ≡ line_text line.now) }
{
    let mut text = print_answer(alloc, line.number, &line.answer)?;
    text.push_str("\n")?;
    Ok(text)
}

fn print_answer(alloc: Global, number: u64, answer: &Printed) -> Result<String, NoMemory>
    ensures { IfOk result (λ text. string_bytes text ≡ answer_text number answer.now) }
{
    match answer {
        Printed::Opened { place, fd, ino } => print_opened(alloc, number, *place, *fd, *ino),
        Printed::Wrote {
            ino,
            place,
            offset,
            count,
        } => {
            let mut text = print_head(alloc, number, *ino, *place)?;
            write!(text, " off={offset} n={count}")?;
            Ok(text)
        }
        Printed::Got { ino, place, bytes } => {
            let mut text = print_head(alloc, number, *ino, *place)?;
            let count = bytes.len();
            write!(text, " n={count} h:")?;
            let digits = hex::encode(alloc, bytes.as_slice())?;
            text.push_str(digits.as_str())?;
            Ok(text)
        }
        Printed::Done { ino, place } => print_head(alloc, number, *ino, *place),
    }
}

fn print_opened(
    alloc: Global,
    number: u64,
    place: u64,
    fd: u64,
    ino: u64,
) -> Result<String, NoMemory>
    ensures { IfOk result (λ text.
        string_bytes text ≡ answer_text number (Printed.Opened place fd ino)) }
{
    let text = format!(in alloc; "{number} ok ns={place} fd={fd} ino={ino}")?;
    Ok(text)
}

fn print_head(alloc: Global, number: u64, ino: u64, place: u64) -> Result<String, NoMemory>
    ensures { IfOk result (λ text. string_bytes text ≡ head_text number ino place) }
{
    let text = format!(in alloc; "{number} ok ino={ino} place={place}")?;
    Ok(text)
}
