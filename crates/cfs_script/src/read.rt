//! Reading a whole script.

ghost use Rattle.std.specs.Prelude.{◌≡◌, ◌++◌, ◌&&◌, List, Option, IfOk, IfErr, OnOk};
ghost use Rattle.std.specs.List.{list_all};
ghost use Rattle.std.specs.Option.{option_to_list};
ghost use Rattle.cfs_script.specs.declared.command.Command.TheVariants as commands;
ghost use Rattle.cfs_script.specs.declared.line.Line.{Line};
ghost use Rattle.cfs_script.specs.Script.{IsScript, IsNoScript, IsFirstOutside, IsLawful, OnLine, IsNext, after_line, is_passed_over, is_printed};

use crate::reading::form_in;
use crate::script::MOST_LINES;
use crate::seen::Seen;
use crate::texts::Texts;
use crate::{Command, Line, Script, ScriptRefusal};
use cfs_words::WordRefusal;
use std::alloc::{AllocFailed, Global};

/// The script of `play` that the bytes spell. Takes time linear in the bytes, and the memory of the
/// lines.
///
/// `Line` comes only where the bytes are no script, with the number of the first line that no
/// script has in its place: it spells no form, may not ask for that there, or is line 65,537.
pub fn read_play(alloc: Global, bytes: &[u8]) -> Result<Script, ScriptRefusal>
    ensures found { IfOk result (λ script. IsScript commands.Play bytes.now script) }
    ensures only { IfOk result (λ script. (lines : List Line) →
        IsScript commands.Play bytes.now lines → lines ≡ script) }
    ensures lawful { IfOk result (λ script. IsLawful commands.Play script) }
    ensures refused { IfErr result (λ refusal.
        OnLine refusal (λ _. IsNoScript commands.Play bytes.now)) }
    ensures first { IfErr result (λ refusal.
        OnLine refusal (IsFirstOutside commands.Play bytes.now)) }
{
    read_script(alloc, Command::Play, bytes)
}

/// The script of `run` that the bytes spell, as [`read_play`] does for `play`.
pub fn read_run(alloc: Global, bytes: &[u8]) -> Result<Script, ScriptRefusal>
    ensures found { IfOk result (λ script. IsScript commands.Run bytes.now script) }
    ensures only { IfOk result (λ script. (lines : List Line) →
        IsScript commands.Run bytes.now lines → lines ≡ script) }
    ensures lawful { IfOk result (λ script. IsLawful commands.Run script) }
    ensures refused { IfErr result (λ refusal.
        OnLine refusal (λ _. IsNoScript commands.Run bytes.now)) }
    ensures first { IfErr result (λ refusal.
        OnLine refusal (IsFirstOutside commands.Run bytes.now)) }
{
    read_script(alloc, Command::Run, bytes)
}

fn read_script(alloc: Global, command: Command, bytes: &[u8]) -> Result<Script, ScriptRefusal>
    ensures found { IfOk result (λ script. IsScript command bytes.now script) }
    ensures only { IfOk result (λ script. (lines : List Line) →
        IsScript command bytes.now lines → lines ≡ script) }
    ensures lawful { IfOk result (λ script. IsLawful command script) }
    ensures refused { IfErr result (λ refusal. OnLine refusal (λ _. IsNoScript command bytes.now)) }
    ensures first { IfErr result (λ refusal. OnLine refusal (IsFirstOutside command bytes.now)) }
{
    let mut lines = Vec::new(alloc);
    let mut seen = Seen::new(alloc);
    let mut number = 0;
    'texts: for text in Texts::of(bytes) {
        number += 1;
        let line = next_line(alloc, command, &mut seen, number, text)?;
        push_some(&mut lines, line)?;
    }
    Ok(Script::new(command, lines))
}

/// The line of this number, if its text is not passed over; `seen` takes it in.
fn next_line(
    alloc: Global,
    command: Command,
    seen: &mut Seen,
    number: u64,
    text: &[u8],
) -> Result<Option<Line>, ScriptRefusal>
    ensures found { IfOk result (IsNext command seen.old number text.now) }
    ensures seen { IfOk result (λ line. seen.new ≡ after_line seen.old line) }
    ensures number { IfErr result (λ refusal. OnLine refusal (λ n. n ≡ number)) }
    ensures refused { IfErr result (λ refusal. OnLine refusal (λ _.
        (line : Option Line) → IsNext command seen.old number text.now line → ⊥)) }
{
    if number > MOST_LINES {
        return Err(ScriptRefusal::Line(number));
    }
    if is_passed_over(text) {
        return Ok(None);
    }
    let form = match form_in(alloc, text) {
        Ok(form) => form,
        Err(WordRefusal::Outside) => return Err(ScriptRefusal::Line(number)),
        Err(WordRefusal::NoMemory) => return Err(ScriptRefusal::NoMemory),
    };
    if !seen.allows(command, &form) {
        return Err(ScriptRefusal::Line(number));
    }
    seen.add(&form)?;
    Ok(Some(Line { number, form }))
}

/// Whether the text is empty or a comment.
fn is_passed_over(text: &[u8]) -> bool
    ensures { result ≡ is_passed_over text.now }
{
    match text {
        [] => true,
        [first, ..] => *first == b'#' && are_printed(text),
    }
}

fn are_printed(text: &[u8]) -> bool
    ensures { result ≡ list_all is_printed text.now }
{
    text.iter().all(|b| matches!(*b, b' '..=b'~'))
}

fn push_some(lines: &mut Vec<Line>, line: Option<Line>) -> Result<(), AllocFailed<Line>>
    ensures { OnOk result (lines.new.items ≡ lines.old.items ++ option_to_list line) }
{
    if let Some(line) = line {
        lines.push(line)?;
    }
    Ok(())
}
