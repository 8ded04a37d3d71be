//! Blocks of bytes with a tag word, what a crash may leave of them, and the states of a block that
//! no file has.
#![tactic(auto)]

mod block;
mod devices;
mod free_block;
mod history;
mod mem_block;
mod shadow;
mod written;

pub use block::{BLOCK_LEN, Block, retag};
pub use devices::retag_then_set_word;
pub use free_block::{FreeBlock, ZeroBlock};
pub use history::BlockHistory;
pub use mem_block::MemBlock;
pub use shadow::Shadow;
