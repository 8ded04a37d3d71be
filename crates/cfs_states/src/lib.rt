//! One state of an inode for each file of a store of which nothing is pending, and its free blocks
//! as a pool.
#![tactic(auto)]

mod files;
mod laws;
mod load;
mod parts;
mod pool;
mod share;
mod shares;

pub use laws::{brought_home_are_stored, stored_states_stand};
pub use parts::{FileParts, load_files};
