//! Persistent memory: regions of words, the power that allows each of their steps, and what a crash
//! may leave of them.
#![tactic(auto)]

mod dirty;
mod fault;
mod history;
mod mem_region;
mod meter;
mod metered;
mod pick;
mod power;
mod region;
mod regions;
mod run;
mod trace;

pub use dirty::Dirty;
pub use fault::DeviceFault;
pub use history::History;
pub use mem_region::MemRegion;
pub use meter::{Meter, Plan, Supply};
pub use metered::{set_word_metered, set_word_with_stop};
pub use pick::Pick;
pub use power::Power;
pub use region::{Region, set_word, write_words};
pub use regions::set_word_of;
pub use trace::{Asked, Trace};
