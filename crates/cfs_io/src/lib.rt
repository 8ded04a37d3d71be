//! What lies outside the program: sources of bytes, sinks for bytes, and shelves of named files.
//!
//! Each is a trait with a written meaning: a source has bytes left, a sink has bytes written, and a
//! shelf is a finite map from names to bytes, each where the object tells it. Each counts its own
//! faults, so that a contract above can say that a fault is answered only where there was one.
#![tactic(auto)]

mod call_plan;
mod create_refusal;
mod file_shelf;
mod folder;
mod io_fault;
mod load_refusal;
mod mem_folder;
mod mem_shelf;
mod mem_sink;
mod mem_source;
mod read_refusal;
mod replace;
mod save_refusal;
mod script;
mod shelf;
mod sink;
mod source;
mod std_sink;
mod std_source;
mod system_folder;

pub use create_refusal::CreateRefusal;
pub use file_shelf::{FileShelf, LARGEST_FILE};
pub use folder::Folder;
pub use io_fault::IoFault;
pub use load_refusal::LoadRefusal;
pub use mem_folder::{MemFile, MemFolder};
pub use mem_shelf::MemShelf;
pub use mem_sink::MemSink;
pub use mem_source::MemSource;
pub use read_refusal::ReadRefusal;
use save_refusal::SaveRefusal;
pub use script::{LONGEST_SCRIPT, read_script};
pub use shelf::Shelf;
pub use sink::{Sink, write_all};
pub use source::Source;
pub use std_sink::StdSink;
pub use std_source::StdSource;
pub use system_folder::SystemFolder;
