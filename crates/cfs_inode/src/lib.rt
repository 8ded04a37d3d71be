//! The state of one inode with its devices.
#![tactic(auto)]

mod admission;
mod admit;
mod admit_answer;
mod answers;
mod covering;
mod dispatch;
mod dispatch_answer;
mod finish;
mod finish_answer;
mod laws;
mod mapped;
mod mapping;
mod mark;
mod mark_answer;
mod new;
mod note;
mod open;
mod parts;
mod placing;
mod purge;
mod purge_answer;
mod put_back;
mod reading;
mod reads;
mod room;
mod serve;
mod settle;
mod size;
mod size_answer;
mod skip;
mod state;
mod tagging;
mod telling;
mod trim;
mod trim_answer;

pub use admission::Admission;
pub use admit_answer::AdmitAnswer;
pub use answers::{CloseAnswer, ServeAnswer};
pub use dispatch_answer::DispatchAnswer;
pub use finish_answer::FinishAnswer;
pub use laws::{
    job_steps_are_events, jobs_are_out, standing_are_ready, standing_tell_zero, taken_are_out,
};
pub use mapped::Mapped;
pub use mark_answer::MarkAnswer;
pub use purge_answer::PurgeAnswer;
pub use state::{InodeState, State};
pub use trim_answer::TrimAnswer;
