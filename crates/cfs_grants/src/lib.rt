//! Grants: who has which queue for which file; the removed files, which wait for the last of their
//! grants; and the records that are free.
#![tactic(auto)]

mod free;
mod grant;
mod grants;
mod removed;

pub use free::FreeRecords;
pub use grant::Grant;
pub use grants::{Grants, MOST_QUEUES};
pub use removed::{RECORDS, Removed, RemovedFiles};
