//! Who may do what with a file: the file access permissions of POSIX.1-2017, Base Definitions,
//! section 4.5. That user 0 has every right is this project's own rule, as is the word search for
//! the right to execute, which a directory asks for.
#![tactic(auto)]

mod credential;
mod rights;
mod want;

pub use credential::Credential;
pub use rights::allows;
pub use want::Want;
