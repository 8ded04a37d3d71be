//! The state of one inode and its jobs that are out, kept together.
#![tactic(auto)]

mod active;
mod admit;
mod apply;
mod apply_answer;
mod dispatch;
mod end_answer;
mod ending;
mod find;
mod finish;
mod new;
mod parts;
mod reads;
mod room;
mod serve;
mod telling;
mod trim;

pub use active::ActiveInode;
pub use apply_answer::ApplyAnswer;
pub use end_answer::EndAnswer;
