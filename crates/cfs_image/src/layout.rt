//! Where the words and bytes of a store stand in its image, and which device has which number
//! (own).
//!
//! | device | numbers | in words |
//! |---|---|---|
//! | selector | 0 | 1 |
//! | table copies | 1, 2 | 3073 |
//! | journal records | 3 to 66 | 16 |
//! | size words | 67 to 322 | 1 |
//! | slots, 16 for each queue | 323 + 16 * queue + slot | 518 |
//! | blocks | behind the slots | a tag and 4096 bytes |
//!
//! An image has its header, four words, and then each device in order of number.

ghost use Rattle.std.specs.Prelude.{◌≡◌, ◌<◌, ◌≤◌};
ghost use Rattle.cfs_image.specs.Layout.{block_at, image_len, range_of, region_at, region_count, region_words};
ghost use Rattle.cfs_image.specs.Versions.{image_len_in};

use crate::version::Version;

/// The first word of an image: the bytes `CROSSFS1`, the first one lowest.
pub const NAME: u64 = 0x3153_4653_534f_5243;

/// The second word of an image: the version of its layout.
pub const VERSION: u64 = 2;

/// The fewest blocks of a store.
pub const FEWEST_BLOCKS: u32 = 16;

/// The greatest number of blocks of a store.
pub const MOST_BLOCKS: u32 = 16_384;

/// The fewest queues of a store.
pub const FEWEST_QUEUES: u32 = 1;

/// The greatest number of queues of a store.
pub const MOST_QUEUES: u32 = 64;

/// How many bytes the header has: name, version, number of blocks, number of queues.
pub(crate) const HEADER_LEN: usize = 32;

/// The number of the first slot's region.
pub const FIRST_SLOT: u32 = cfs_file::FIRST_SLOT;

/// How many bytes a block takes in an image.
pub(crate) const BLOCK_ROOM: usize = 4104;

/// How many regions a store of so many queues has. Its blocks have the numbers from there on.
#[inline]
pub fn region_count(queues: u32) -> u32
    requires { queues ≤ MOST_QUEUES }
    ensures { result ≡ region_count queues }
{
    FIRST_SLOT + 16 * queues
}

/// How many words the region with this device number has.
#[inline]
pub fn region_words(device: u32) -> usize
    ensures { result ≡ region_words device }
{
    match device {
        0 => 1,
        1..=2 => 3073,
        3..=66 => 16,
        67..=322 => 1,
        _ => 518,
    }
}

/// Where the words of the region with this device number begin in an image.
#[inline]
pub fn region_at(device: u32) -> usize
    ensures { result ≡ region_at device }
{
    let device = device as usize;
    match device {
        0 => 32,
        1..=2 => 40 + 24_584 * (device - 1),
        3..=66 => 49_208 + 128 * (device - 3),
        67..=322 => 57_400 + 8 * (device - 67),
        _ => 59_448 + 4144 * (device - 323),
    }
}

/// Where the tag of a block begins in the image of a store of so many queues. Its bytes stand
/// behind it.
#[inline]
pub fn block_at(queues: u32, block: u32) -> usize
    ensures { result ≡ block_at queues block }
{
    59_448 + 66_304 * queues as usize + 4104 * block as usize
}

/// The bytes of the device with this number in the image of a store of so many queues: an offset
/// and a length.
#[inline]
pub fn range_of(queues: u32, device: u32) -> (usize, usize)
    requires { queues ≤ MOST_QUEUES }
    ensures { result ≡ range_of queues device }
{
    let first_block = region_count(queues);
    if device < first_block {
        (region_at(device), 8 * region_words(device))
    } else {
        (block_at(queues, device - first_block), BLOCK_ROOM)
    }
}

/// How many bytes the image of a store has.
#[inline]
pub fn image_len(blocks: u32, queues: u32) -> usize
    ensures { result ≡ image_len blocks queues }
{
    block_at(queues, blocks)
}

/// How many bytes the image of a store has in a version of the layout.
pub(crate) fn image_len_in(version: Version, blocks: u32, queues: u32) -> usize
    ensures { result ≡ image_len_in version blocks queues }
{
    51_256 + 512 * version.record_words() + 66_304 * queues as usize + 4104 * blocks as usize
}
