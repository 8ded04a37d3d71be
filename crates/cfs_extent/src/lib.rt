//! The blocks of one file by file block, kept as runs of neighbours.
//!
//! A map is seen as a finite map from file block, 0 to 255, to the block that is held for it, or to
//! nothing where that block is out, and as the number of blocks that it still has room for.
#![tactic(auto)]

mod extent_map;
mod room;
mod run;
mod runs;
mod seat;

pub use extent_map::{BLOCKS, ExtentMap};
