//! The bytes of a file, as a mount of an image would find them, straight from the image.
#![tactic(auto)]

mod dump;
mod heads;
mod payload;
mod replay;
mod stored;

pub use dump::dump_file;
