//! The image of a new store.
ghost use Rattle.std.specs.Prelude.{◌≡◌, ◌≤◌, IfOk};
ghost use Rattle.cfs_image.specs.Checks.{IsSound};
ghost use Rattle.cfs_image.specs.Fresh.{new_image_of};

use crate::layout::{
    FEWEST_BLOCKS, FEWEST_QUEUES, MOST_BLOCKS, MOST_QUEUES, NAME, VERSION, image_len,
};
use crate::write::push_words;
use cfs_file::{Bytes, NoMemory};
use std::alloc::Global;

/// The next inode number, and the record of the root: inode 1, its own parent, a directory of mode
/// 0777.
const NEW_TABLE: [u64; 5] = [2, 1, 1, 2, 0o777];

/// The image of a store of 16 to 16,384 blocks and 1 to 64 queues that holds the root and nothing
/// else: all words and bytes are zero but the header, the next inode number and the root's record
/// (own).
pub fn new_image(alloc: Global, blocks: u32, queues: u32) -> Result<Bytes, NoMemory>
    requires fewest_blocks { FEWEST_BLOCKS ≤ blocks }
    requires most_blocks { blocks ≤ MOST_BLOCKS }
    requires fewest_queues { FEWEST_QUEUES ≤ queues }
    requires most_queues { queues ≤ MOST_QUEUES }
    ensures image { IfOk result (λ image. image ≡ new_image_of blocks queues) }
    ensures sound { IfOk result (λ image. IsSound image) }
{
    let len = image_len(blocks, queues);
    let mut image = Vec::with_capacity(alloc, len)?;
    push_words(
        &mut image,
        &[NAME, VERSION, u64::from(blocks), u64::from(queues)],
    )?;
    let selector = 0;
    push_words(&mut image, &[selector])?;
    push_words(&mut image, &NEW_TABLE)?;
    image.resize(len, 0)?;
    Ok(Bytes::from_vec(image))
}
