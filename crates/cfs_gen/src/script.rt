//! The script of a workload.

ghost use Rattle.std.specs.Prelude.{◌≡◌, ◌≤◌, ◌++◌, IfOk, OnOk};
ghost use Rattle.cfs_script.specs.Script.{IsLawful};
ghost use Rattle.cfs_script.specs.declared.command.Command.TheVariants as commands;
ghost use Rattle.cfs_gen.specs.Lines.{numbered};
ghost use Rattle.cfs_gen.specs.Workload.{requests_below, workload};

use crate::asked::add_request;
use crate::draft::Draft;
use crate::draws::Draws;
use crate::session::{close_files, introduce_callers, open_files};
use cfs_file::NoMemory;
use cfs_script::{Command, Form, Script};
use std::alloc::Global;

/// The most requests of a workload. With a turn behind each, its script still has no more lines
/// than a script may have (own).
pub const MOST_REQUESTS: u64 = 32_000;

/// The script of `play` of a workload (own): eight callers open a file each and one for all, make
/// `count` requests in turn, drain, and close their files. What a request asks for is drawn from
/// `number`. Takes time and memory linear in the script.
pub fn gen_script(alloc: Global, number: u64, count: u64) -> Result<Script, NoMemory>
    requires some { 1 ≤ count }
    requires few { count ≤ MOST_REQUESTS }
    ensures script { IfOk result (λ script. script ≡ numbered 1 (workload number count)) }
    ensures lawful { IfOk result (λ script. IsLawful commands.Play script) }
{
    let mut draft = Draft::new(alloc);
    introduce_callers(&mut draft)?;
    open_files(alloc, &mut draft)?;
    add_requests(alloc, &mut draft, number, count)?;
    draft.push(Form::Drain)?;
    close_files(&mut draft)?;
    Ok(Script::new(Command::Play, draft.into_lines()))
}

/// Adds so many requests.
fn add_requests(alloc: Global, draft: &mut Draft, number: u64, count: u64) -> Result<(), NoMemory>
    ensures { OnOk result (draft.new ≡ draft.old ++ requests_below number count) }
{
    let mut draws = Draws::new(number);
    'requests: for index in 0..count {
        add_request(alloc, draft, &mut draws, index)?;
    }
    Ok(())
}
