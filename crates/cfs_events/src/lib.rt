//! The definitions of `cfs_core` as a plain and slow program.
//!
//! `run_events` takes a core through a list of events, and refuses exactly where one may not come;
//! `is_image`, `image_now`, `stored_file` and `recovered_file` say what a crash may leave, and
//! which file a mount finds in it. Nothing on a request's path calls them: they are for tests, and
//! for a comparison with what the devices hold.
#![tactic(auto)]

mod after;
mod event_refusal;
mod jobs;
mod may;
mod medium;
mod run;
mod spans;
mod step;
mod step_refusal;
mod tracks;

pub use event_refusal::EventRefusal;
pub use medium::{image_now, is_image, recovered_file, stored_file};
pub use run::run_events;
