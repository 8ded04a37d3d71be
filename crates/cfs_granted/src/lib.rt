//! The life of one record: free, a file with its grants and its pending requests, and the end of a
//! file that is no longer in the tree.
#![tactic(auto)]

mod admit;
mod attach;
mod busy;
mod denied;
mod detach;
mod ending;
mod file_state;
mod find;
mod free;
mod life;
mod new;
mod passing;
mod purge;
mod purge_answer;
mod reader;
mod reads;
mod room;
mod rows;
mod telling;

pub use busy::AttachRefusal;
pub use denied::Denied;
pub use ending::Ending;
pub use file_state::FileState;
pub use free::Free;
pub use life::Life;
pub use purge_answer::PurgeAnswer;
pub use reader::Reader;
