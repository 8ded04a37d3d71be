//! The grammar of scripts: which bytes are a script of `play` or of `run`, and the lines that they
//! spell.
//!
//! One table of forms (specs/Table.antt) gives the words of each form; what a word spells is
//! `cfs_words`' one definition. `read_play` and `read_run` accept exactly what the grammar
//! (specs/Script.antt) relates to some lines.
#![tactic(auto)]

mod command;
mod form;
mod line;
mod order;
mod order_reading;
mod print;
mod read;
mod reading;
mod script;
mod script_refusal;
mod seen;
mod texts;
mod verb;
mod verb_reading;

pub use command::Command;
pub use form::{CALLERS, Form};
pub use line::Line;
pub use print::{print_and_read_play, print_and_read_run, print_script};
pub use read::{read_play, read_run};
pub use script::{MOST_LINES, Script};
pub use script_refusal::ScriptRefusal;
