//! A store out of its image.
ghost use Rattle.std.specs.Prelude.{◌≡◌, ◌+◌, ◌*◌, ◌/◌, ◌≤◌, All, IfOk, IfErr, OnOk, length, drop};
ghost use Rattle.cfs_pmem.specs.Images as regions;
ghost use Rattle.cfs_block.specs.BlockImages as blocks;
ghost use Rattle.cfs_block.specs.MemoryBlocks.{seen_of, number_of, faults_of};
ghost use Rattle.cfs_image.specs.Checks.{IsSound, NamesDamage};
ghost use Rattle.cfs_image.specs.Image.{IsWord, IsNewBlock, IsNewRegion, block_bytes, contents_in, image_of, words_bytes, words_in};
ghost use Rattle.cfs_image.specs.Laws.{IsToldBy};
ghost use Rattle.cfs_image.specs.Layout.{block_at, region_at, region_count, region_words};
ghost use Rattle.cfs_image.specs.Reading.{AreBlocksOf, AreRegionsOf};

use crate::checks::check_header;
use crate::layout::{BLOCK_ROOM, block_at, region_at, region_count, region_words};
use crate::medium::Medium;
use crate::refusal::ImageRefusal;
use crate::version::Version;
use byteorder::{ByteOrder, LittleEndian};
use cfs_block::MemBlock;
use cfs_file::NoMemory;
use cfs_pmem::MemRegion;
use std::alloc::Global;

/// The region whose words are these bytes.
fn read_region(alloc: Global, device: u32, bytes: &[u8]) -> Result<MemRegion, NoMemory>
    requires { length bytes.now ≡ 8 * region_words device }
    ensures words { IfOk result (λ region. words_bytes (regions.words_of region.seen) ≡ bytes.now) }
    ensures size { IfOk result
        (λ region. length (regions.words_of region.seen) ≡ region_words device) }
    ensures device { IfOk result (λ region. region.seen.device ≡ device) }
    ensures fit { IfOk result (λ region. All IsWord (regions.words_of region.seen)) }
    ensures untouched { IfOk result IsNewRegion }
{
    let mut words = vec![in alloc; 0; bytes.len() / 8]?;
    LittleEndian::read_u64_into(bytes, &mut words);
    Ok(MemRegion::new(alloc, device, words)?)
}

/// The block whose tag and bytes these bytes are.
fn read_block(alloc: Global, device: u32, number: u32, bytes: &[u8]) -> Result<MemBlock, NoMemory>
    requires { length bytes.now ≡ 4104 }
    ensures content { IfOk result
        (λ block. block_bytes (blocks.content_of (seen_of block)) ≡ bytes.now) }
    ensures device { IfOk result (λ block. (seen_of block).device ≡ device) }
    ensures number { IfOk result (λ block. number_of block ≡ number) }
    ensures fit { IfOk result (λ block. IsWord (blocks.content_of (seen_of block)).tag) }
    ensures untouched { IfOk result IsNewBlock }
{
    let tag = LittleEndian::read_u64(bytes);
    let content = Vec::from_slice(alloc, &bytes[8..])?;
    Ok(MemBlock::new(alloc, device, number, tag, content)?)
}

/// The first `count` regions of an image.
fn read_regions(alloc: Global, count: u32, bytes: &[u8]) -> Result<Vec<MemRegion>, NoMemory>
    requires { region_at count ≤ length bytes.now }
    ensures { IfOk result (λ regions. AreRegionsOf bytes.now count regions.items) }
{
    let mut regions = Vec::with_capacity(alloc, count as usize)?;
    for device in 0..count {
        let from = region_at(device);
        let to = from + 8 * region_words(device);
        regions.push(read_region(alloc, device, &bytes[from..to])?)?;
    }
    Ok(regions)
}

/// The first `count` blocks of the image of a store of so many queues.
fn read_blocks(
    alloc: Global,
    queues: u32,
    count: u32,
    bytes: &[u8],
) -> Result<Vec<MemBlock>, NoMemory>
    requires queues { queues ≤ 64 }
    requires count { count ≤ 16384 }
    requires within { block_at queues count ≤ length bytes.now }
    ensures { IfOk result (λ blocks. AreBlocksOf bytes.now queues count blocks.items) }
{
    let first = region_count(queues);
    let mut blocks = Vec::with_capacity(alloc, count as usize)?;
    for number in 0..count {
        let from = block_at(queues, number);
        let to = from + BLOCK_ROOM;
        blocks.push(read_block(alloc, first + number, number, &bytes[from..to])?)?;
    }
    Ok(blocks)
}

/// The store that an image holds, in one pass over its bytes.
///
/// `Damaged` names the first check of its length and header that fails, and comes where one does
/// (own). Each object is new: it keeps two copies of what it holds, and has no other image.
pub fn read_image(alloc: Global, bytes: &[u8]) -> Result<Medium<MemRegion, MemBlock>, ImageRefusal>
    ensures sound { OnOk result (IsSound bytes.now) }
    ensures image { IfOk result
        (λ medium. image_of (words_in medium.regions.items) (contents_in medium.blocks.items) ≡
        bytes.now) }
    ensures regions { IfOk result (λ medium. All IsNewRegion medium.regions.items) }
    ensures blocks { IfOk result (λ medium. All IsNewBlock medium.blocks.items) }
    // What a crash may leave of each object is what it holds now, and nothing else.
    ensures sure { IfOk result
        (λ medium. All (λ region. regions.IsSure region.seen) medium.regions.items) }
    ensures sure_blocks { IfOk result
        (λ medium. All (λ block. blocks.IsSureBlock (seen_of block)) medium.blocks.items) }
    // No other store has this image.
    ensures tells { IfOk result
        (λ medium. IsToldBy bytes.now (words_in medium.regions.items)
        (contents_in medium.blocks.items)) }
    ensures err { IfErr result (NamesDamage bytes.now) }
{
    let size = check_header(bytes, Version::Present)?;
    let regions = read_regions(alloc, region_count(size.queues), bytes)?;
    let blocks = read_blocks(alloc, size.queues, size.blocks, bytes)?;
    Ok(Medium { regions, blocks })
}
