//! The lines of output: what a line of a script answers, and its text.
//!
//! The text of each answer is one definition (specs/Text.antt), which `print_line` gives exactly.
#![tactic(auto)]

mod entries;
mod laws;
mod listed;
mod out_line;
mod places;
mod print;
mod printed;

pub use entries::Entries;
pub use laws::{lines_are_told, outputs_are_told};
pub use listed::{Letter, Listed};
pub use out_line::OutLine;
pub use places::Places;
pub use print::print_line;
pub use printed::Printed;
