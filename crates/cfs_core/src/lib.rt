//! The core of one inode: its base file, its log with the state of each entry, what a crash may
//! leave of its part of the medium, and the step that each event makes.
//!
//! It is a pure model: it has no device and no handle. `specs/May.antt` says when each event may
//! come, `specs/After.antt` what it changes, `specs/Medium.antt` what an image of the medium is and
//! which file a mount finds in it. The theorem and the laws of all runs are contracts of functions
//! that do nothing. The definitions as a plain and slow program are `cfs_events`.
#![tactic(auto)]

mod doubt;
mod event;
mod flag;
mod image;
mod inode_core;
mod items;
mod laws;
mod state;
mod stretch;
mod track;

pub use doubt::Doubt;
pub use event::{End, Event, SizeEnd};
pub use flag::Flag;
pub use image::Image;
pub use inode_core::Core;
pub use items::Items;
pub use laws::{
    images_open_as_cores, job_steps_commute, jobs_are_apart, listed_until_closed, live_are_open,
    marked_are_covered, marks_may_follow, moments_may_come, only_live_are_open, runs_are_good,
    steps_stay_inside,
};
pub use state::{Job, Lease, State};
pub use stretch::Stretch;
pub use track::Track;
