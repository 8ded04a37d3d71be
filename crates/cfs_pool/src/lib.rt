//! Free blocks, of which those of the lowest numbers are taken first.
#![tactic(auto)]

mod free;
mod numbered;
mod pool;
mod ranked;

pub use numbered::Numbered;
pub use pool::{FEW, MANY, Pool, Short};
pub use ranked::Ranked;
