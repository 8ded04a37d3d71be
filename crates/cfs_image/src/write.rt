//! The image of a store.
ghost use Rattle.std.specs.Prelude.{◌≡◌, ◌^◌, ◌<◌, ◌++◌, All, IfOk, OnOk, length};
ghost use Rattle.std.specs.List.{flat_map};
ghost use Rattle.cfs_image.specs.Checks.{IsSound};
ghost use Rattle.cfs_image.specs.Held.{AreHeld};
ghost use Rattle.cfs_image.specs.Image.{IsWord, block_bytes, contents_in, image_of, words_bytes, words_in};

use crate::layout::{NAME, VERSION, image_len};
use crate::medium::Medium;
use byteorder::{ByteOrder, LittleEndian};
use cfs_block::MemBlock;
use cfs_file::{Bytes, NoMemory};
use cfs_pmem::MemRegion;
use std::alloc::Global;

/// Writes words behind the bytes that are there.
pub(crate) fn push_words(image: &mut Vec<u8>, words: &[u64]) -> Result<(), NoMemory>
    ensures image { OnOk result (image.new.items ≡ image.old.items ++ words_bytes words.now) }
    ensures fit { All IsWord words.now }
{
    let from = image.len();
    image.resize(from + 8 * words.len(), 0)?;
    LittleEndian::write_u64_into(words, &mut image[from..]);
    Ok(())
}

/// Writes the words of regions, one after another, behind the bytes that are there.
fn push_regions(image: &mut Vec<u8>, regions: &[MemRegion]) -> Result<(), NoMemory>
    ensures image { OnOk result
        (image.new.items ≡ image.old.items ++ flat_map words_bytes (words_in regions.now)) }
    ensures fit { OnOk result (All (λ words. All IsWord words) (words_in regions.now)) }
{
    for region in regions {
        push_words(image, region.words())?;
    }
    Ok(())
}

/// Writes a tag and bytes for each block, one after another, behind the bytes that are there.
fn push_blocks(image: &mut Vec<u8>, blocks: &[MemBlock]) -> Result<(), NoMemory>
    ensures image { OnOk result
        (image.new.items ≡ image.old.items ++ flat_map block_bytes (contents_in blocks.now)) }
    ensures fit { OnOk result (All (λ content. IsWord content.tag) (contents_in blocks.now)) }
{
    for block in blocks {
        image.extend_from_slice(&block.tag_word().to_le_bytes())?;
        image.extend_from_slice(block.bytes())?;
    }
    Ok(())
}

/// The image of what a store holds now, in one pass over it: the header, the words of its regions,
/// the tags and bytes of its blocks (own).
pub fn write_image(alloc: Global, medium: &Medium<MemRegion, MemBlock>) -> Result<Bytes, NoMemory>
    ensures image { IfOk result
        (λ image. image ≡ image_of (words_in medium.now.regions.items)
        (contents_in medium.now.blocks.items)) }
    ensures held { OnOk result
        (AreHeld (words_in medium.now.regions.items) (contents_in medium.now.blocks.items)) }
    ensures sound { IfOk result (λ image. IsSound image) }
{
    let queues = medium.queues();
    let blocks = medium.blocks.len() as u32;
    let mut image = Vec::with_capacity(alloc, image_len(blocks, queues))?;
    push_words(
        &mut image,
        &[NAME, VERSION, u64::from(blocks), u64::from(queues)],
    )?;
    push_regions(&mut image, &medium.regions)?;
    push_blocks(&mut image, &medium.blocks)?;
    Ok(Bytes::from_vec(image))
}
