//! What a mount of a store is to do, worked out from the store's words and their survey.
#![tactic(auto)]

mod dead;
mod emptied;
mod lists;
mod mount;
mod pendings;
mod records;
mod untagged;

pub use mount::plan_mount;
