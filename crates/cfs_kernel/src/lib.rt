//! The kernel's part: the stored tree of names, the grants with their queues, the removed files.
//!
//! A request on names is tested against the tree as it stands. One that passes its tests takes the
//! next place among them; where it changes the tree, the change is stored before it is made. All
//! memory is taken before the first device step. A file that has no name any more keeps its record
//! until its last grant is closed and its blocks are purged.
#![tactic(auto)]

mod calls;
mod made;
mod ns_state;
mod opened;
mod queues;
mod refusal;
mod storing;

pub use made::Made;
pub use ns_state::NsState;
pub use opened::Opened;
pub use refusal::NsRefusal;
