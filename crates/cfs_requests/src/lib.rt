//! What the requests on names do: which file an open finds or makes, and what every request answers,
//! as definitions over the tree and the grants, with the halves that look without changing.
//!
//! After POSIX.1-2017, System Interfaces, open, mkdir, unlink, rmdir and rename; the order of the
//! refusals and the bounds are this project's own.
#![tactic(auto)]

mod laws;
mod look;
mod name_refusal;
mod opening;

pub use laws::{found_is_allowed, orders_go_on};
pub use look::{look_to_make, look_to_move, look_to_open, look_to_remove, look_to_unlink};
pub use name_refusal::NameRefusal;
pub use opening::Opening;
