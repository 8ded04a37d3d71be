//! The generated workload: a script of eight callers and their requests, drawn from a number, and
//! the line that sums up how it was answered.
//!
//! Which script a number and a count give is one definition (specs/Workload.antt), and so is the
//! text of the line (specs/Summary.antt).
#![tactic(auto)]

mod asked;
mod draft;
mod drawn;
mod draws;
mod kind;
mod script;
mod session;
mod summary;

pub use script::{MOST_REQUESTS, gen_script};
pub use summary::{Summary, print_summary};
