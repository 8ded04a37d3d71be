//! The words of an image that a survey looks at.
ghost use Rattle.std.specs.Prelude.{◌≡◌, ◌+◌, ◌*◌, ◌<◌, ◌≤◌, IfOk, length};
ghost use Rattle.cfs_fsck.specs.Images.{image_words, rows_at, tags_at, words_at};
ghost use Rattle.cfs_image.specs.Checks.{IsSound};
ghost use Rattle.cfs_image.specs.Image.{word_at};
ghost use Rattle.cfs_image.specs.Layout.{block_at};
ghost use Rattle.cfs_survey.specs.Surveys.{AreWhole, selected_at, words_of};

use byteorder::{ByteOrder, LittleEndian};
use cfs_file::NoMemory;
use cfs_image::{FIRST_SLOT, StoreSize, block_at, region_at, region_words};
use cfs_survey::{HEAD_WORDS, RECORD_WORDS, StoreWords};
use std::alloc::{AllocError, Global};

/// The device numbers of the selector, the first table, the first record of the journal and the
/// first size word.
const SELECTOR: u32 = 0;

const FIRST_TABLE: u32 = 1;

const FIRST_RECORD: u32 = 3;

const FIRST_SIZE: u32 = 67;

/// How many records the journal has.
const RECORDS: usize = 64;

/// How many size words a store has.
const SIZES: usize = 256;

/// The word at an offset.
fn word_at(bytes: &[u8], at: usize) -> u64
    requires { at + 8 ≤ length bytes.now }
    ensures { result ≡ word_at bytes.now at }
{
    LittleEndian::read_u64(&bytes[at..])
}

/// So many words, one behind another from an offset on.
fn words_at<const N: usize>(bytes: &[u8], at: usize) -> [u64; N]
    requires { at + 8 * N ≤ length bytes.now }
    ensures { result ≡ words_at bytes.now at N }
{
    let mut words = [0; N];
    LittleEndian::read_u64_into(&bytes[at..at + 8 * N], &mut words);
    words
}

/// The same in memory that it takes.
fn read_column(alloc: Global, bytes: &[u8], at: usize, count: usize) -> Result<Vec<u64>, AllocError>
    requires { at + 8 * count ≤ length bytes.now }
    ensures { IfOk result (λ words. words.items ≡ words_at bytes.now at count) }
{
    let mut words = vec![in alloc; 0; count]?;
    LittleEndian::read_u64_into(&bytes[at..at + 8 * count], &mut words);
    Ok(words)
}

/// The first words of each of so many objects. The first object begins at an offset, and each other
/// one so many bytes behind the one before it.
fn read_rows<const N: usize>(
    alloc: Global,
    bytes: &[u8],
    first: usize,
    apart: usize,
    count: usize,
) -> Result<Vec<[u64; N]>, NoMemory>
    requires within { first + apart * count ≤ length bytes.now }
    requires room { 8 * N ≤ apart }
    ensures { IfOk result
        (λ rows. rows.items ≡ rows_at bytes.now (λ k. first + apart * k) N count) }
{
    let mut rows = Vec::with_capacity(alloc, count)?;
    for k in 0..count {
        rows.push(words_at(bytes, first + apart * k))?;
    }
    Ok(rows)
}

/// The tag of each of so many blocks of a store of so many queues.
fn read_tags(alloc: Global, bytes: &[u8], queues: u32, blocks: u32) -> Result<Vec<u64>, NoMemory>
    requires queues { queues ≤ 64 }
    requires blocks { blocks ≤ 16384 }
    requires within { block_at queues blocks ≤ length bytes.now }
    ensures { IfOk result (λ tags. tags.items ≡ tags_at bytes.now queues blocks) }
{
    let mut tags = Vec::with_capacity(alloc, blocks as usize)?;
    for block in 0..blocks {
        tags.push(word_at(bytes, block_at(queues, block)))?;
    }
    Ok(tags)
}

/// The table that a selector's word selects.
fn read_table(alloc: Global, bytes: &[u8], selector: u64) -> Result<Vec<u64>, NoMemory>
    requires { 49208 ≤ length bytes.now }
    ensures { IfOk result
        (λ table. table.items ≡ words_at bytes.now (selected_at selector) 3073) }
{
    let device = FIRST_TABLE + (selector % 2) as u32;
    Ok(read_column(alloc, bytes, region_at(device), region_words(device))?)
}

/// The words of an image that a survey looks at, each read once. The image is sound, and its store
/// has this size.
pub(crate) fn read_words(
    alloc: Global,
    bytes: &[u8],
    size: StoreSize,
) -> Result<StoreWords, NoMemory>
    requires sound { IsSound bytes.now }
    requires blocks { size.blocks ≡ word_at bytes.now 16 }
    requires queues { size.queues ≡ word_at bytes.now 24 }
    ensures words { IfOk result (λ words. words_of words ≡ image_words bytes.now) }
    ensures whole { IfOk result (λ words. AreWhole (words_of words)) }
{
    let selector = word_at(bytes, region_at(SELECTOR));
    Ok(StoreWords {
        selector,
        table: read_table(alloc, bytes, selector)?,
        journal: read_rows(
            alloc,
            bytes,
            region_at(FIRST_RECORD),
            8 * region_words(FIRST_RECORD),
            RECORDS,
        )?,
        sizes: read_column(alloc, bytes, region_at(FIRST_SIZE), SIZES)?,
        slots: read_rows(
            alloc,
            bytes,
            region_at(FIRST_SLOT),
            8 * region_words(FIRST_SLOT),
            16 * size.queues as usize,
        )?,
        tags: read_tags(alloc, bytes, size.queues, size.blocks)?,
    })
}
