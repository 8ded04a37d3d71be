//! A lock whose passes know the history of the value behind it.
//!
//! A value keeps a log. Who enters finds a log that begins with all that its pass had seen, in
//! which the entries of its own number are those that it added, each once.
#![tactic(auto)]

mod held;
mod lock;
mod pass;
mod recorded;
mod rule;
mod view;

pub use held::Held;
pub use lock::TreeLock;
pub use pass::Pass;
pub use recorded::Recorded;
pub use view::{Book, Stage, View};
