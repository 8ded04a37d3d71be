//! The image of a store: the words and bytes of its devices as one list of bytes, both ways.
#![tactic(auto)]

mod checks;
mod crash;
mod fresh;
mod laws;
mod layout;
mod medium;
mod read;
mod refusal;
mod version;
mod write;

pub use checks::{StoreSize, check_header};
pub use fresh::new_image;
pub use laws::{images_are_sound, images_stand, images_tell};
pub use layout::{
    FEWEST_BLOCKS, FEWEST_QUEUES, FIRST_SLOT, MOST_BLOCKS, MOST_QUEUES, NAME, VERSION, block_at,
    image_len, range_of, region_at, region_count, region_words,
};
pub use medium::Medium;
pub use read::read_image;
pub use refusal::ImageRefusal;
pub use version::Version;
pub use write::write_image;

#[cfg(test)]
mod tests;
