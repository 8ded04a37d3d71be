//! The parts of a mounted store, made of its devices as they are after an image was loaded, or
//! after a crash, and of what a survey found on them.
#![tactic(auto)]

mod kernel;
mod laws;
mod names;
mod queues;
mod regions;
mod tree;

pub use kernel::{MountedRegions, mount_regions};
pub use laws::{brought_homes_are_settled, homes_are_settled};
pub use names::mounted_names;
pub use regions::{StoreRegions, split_regions};
pub use tree::mounted_tree;
