//! All parts of a store in use are put back into a medium, word for word.
#![tactic(auto)]

mod all;
mod blocks;
mod gathered;
mod kernel;
mod medium;
mod regions;
mod slots;

pub use all::gather;
pub use blocks::{add_block, add_cell, add_cells, add_lent, add_pool};
pub use gathered::Gathered;
pub use kernel::{add_home, add_kernel, add_queues, add_tree};
pub use regions::{add_all, add_fixed, add_region, add_slots};
pub use slots::{
    add_all_staged, add_doing, add_doubt, add_entries, add_in_doubt, add_live, add_staged,
};
