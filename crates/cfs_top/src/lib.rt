//! The top call: all that the program `crossfs` does, over the words, the source, the sink and the
//! shelf that are handed in.
#![tactic(auto)]

mod check;
mod command;
mod dump;
mod out_line;
mod play;
mod printed;
mod say;
mod stage;
mod status;
mod steady;
mod stored;
mod upgrade;
mod world;

pub use status::Status;
pub use steady::crossfs_steady;
