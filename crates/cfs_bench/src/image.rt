//! Images to time: a new one is read and written so many times, each time what was written last.
ghost use Rattle.std.specs.Prelude.{◌≤◌};

use anyhow::{Context, anyhow};
use cfs_file::Bytes;
use cfs_image::{FEWEST_BLOCKS, FEWEST_QUEUES, MOST_BLOCKS, MOST_QUEUES};
use std::alloc::Global;

/// The length of the image of a new store of so many blocks and queues, after it was read and
/// written `count` times.
pub fn read_and_write(
    alloc: Global,
    blocks: u32,
    queues: u32,
    count: u64,
) -> anyhow::Result<usize> {
    if !(FEWEST_BLOCKS..=MOST_BLOCKS).contains(&blocks)
        || !(FEWEST_QUEUES..=MOST_QUEUES).contains(&queues)
    {
        return Err(anyhow!("no store has this size"));
    }
    let mut image = cfs_image::new_image(alloc, blocks, queues)?;
    for _ in 0..count {
        image = again(alloc, &image)?;
    }
    Ok(image.len())
}

/// The image of the store that an image holds.
fn again(alloc: Global, image: &Bytes) -> anyhow::Result<Bytes> {
    let medium = cfs_image::read_image(alloc, image.as_slice())?;
    Ok(cfs_image::write_image(alloc, &medium)?)
}
