//! The program `crossfs`: the real streams and files and the words of the command line, handed to
//! the top call.
#![tactic(auto)]

use cfs_file::{NoMemory, Word};
use cfs_io::{FileShelf, StdSink, StdSource, SystemFolder};
use cfs_top::{Status, crossfs_steady};
use std::alloc::Global;
use std::env;
use std::process::ExitCode;
use std::rt::Env;

fn main(rt: HostRuntime) -> ExitCode {
    let alloc = rt.alloc();
    let status = match read_words(&rt, alloc) {
        Ok(words) => run(&rt, alloc, words.as_slice()),
        Err(NoMemory) => Status::NoMemory,
    };
    ExitCode::from(status.number())
}

/// The words of the command line. Words that cannot be read as text are no command: there are none
/// then.
fn read_words<R: Env + AllocGlobal>(rt: &R, alloc: Global) -> Result<Vec<Word>, NoMemory> {
    let mut words = Vec::new(alloc);
    if let Ok(args) = env::args(rt) {
        for arg in args {
            words.push(Word::from_slice(alloc, arg.as_bytes())?)?;
        }
    }
    Ok(words)
}

/// Runs the top call over the standard streams and the files of the system.
fn run(rt: &HostRuntime, alloc: Global, words: &[Word]) -> Status {
    let mut input = StdSource::new(rt.stdin());
    let mut output = StdSink::new(rt.stdout());
    let mut shelf = FileShelf::new(SystemFolder::new(rt, alloc), alloc);
    crossfs_steady(alloc, words, &mut input, &mut output, &mut shelf)
}
