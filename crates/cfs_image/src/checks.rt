//! The checks of an image's length and header.
ghost use Rattle.std.specs.Prelude.{◌≡◌, ◌+◌, ◌*◌, ◌≤◌, false, true, length, IfOk, IfErr, OnOk, Some};
ghost use Rattle.cfs_image.specs.Checks.{IsSoundIn, NamesFirst};
ghost use Rattle.cfs_image.specs.Image.{word_at};

use crate::layout::{
    FEWEST_BLOCKS, FEWEST_QUEUES, HEADER_LEN, MOST_BLOCKS, MOST_QUEUES, NAME, image_len_in,
};
use crate::refusal::ImageRefusal;
use crate::version::Version;
use byteorder::{ByteOrder, LittleEndian};

/// How many blocks and queues a store has.
#[derive(Clone, Copy, Debug, PartialEq, Eq)]
pub struct StoreSize {
    /// 16 to 16,384.
    pub blocks: u32,
    /// 1 to 64.
    pub queues: u32,
}

/// Refuses by naming this damage, unless the check holds.
fn ensure(holds: bool, offset: u64, found: u64, against: u64) -> Result<(), ImageRefusal>
    ensures ok { OnOk result (holds ≡ true) }
    ensures named { IfErr result (λ refusal. refusal ≡ ImageRefusal.Damaged offset found against) }
    ensures err { IfErr result (λ refusal. holds ≡ false) }
{
    if holds {
        Ok(())
    } else {
        Err(ImageRefusal::Damaged {
            offset,
            found,
            against,
        })
    }
}

/// The word at an offset.
fn word_at(bytes: &[u8], offset: usize) -> u64
    requires { offset + 8 ≤ length bytes.now }
    ensures { result ≡ word_at bytes.now offset }
{
    LittleEndian::read_u64(&bytes[offset..])
}

/// Checks the length and the header of an image of this version, and gives the size of its store.
///
/// `Damaged` names the first check that fails (own); there is no other refusal. Takes no memory.
pub fn check_header(bytes: &[u8], version: Version) -> Result<StoreSize, ImageRefusal>
    ensures sound { OnOk result (IsSoundIn version bytes.now) }
    ensures blocks { IfOk result (λ size. size.blocks ≡ word_at bytes.now 16) }
    ensures queues { IfOk result (λ size. size.queues ≡ word_at bytes.now 24) }
    ensures named { IfErr result (NamesFirst version bytes.now) }
{
    let len = bytes.len() as u64;
    ensure(HEADER_LEN as u64 <= len, len, len, HEADER_LEN as u64)?;
    let name = word_at(bytes, 0);
    ensure(name == NAME, 0, name, NAME)?;
    let found = word_at(bytes, 8);
    ensure(found == version.number(), 8, found, version.number())?;
    let blocks = word_at(bytes, 16);
    ensure(
        u64::from(FEWEST_BLOCKS) <= blocks,
        16,
        blocks,
        u64::from(FEWEST_BLOCKS),
    )?;
    ensure(
        blocks <= u64::from(MOST_BLOCKS),
        16,
        blocks,
        u64::from(MOST_BLOCKS),
    )?;
    let queues = word_at(bytes, 24);
    ensure(
        u64::from(FEWEST_QUEUES) <= queues,
        24,
        queues,
        u64::from(FEWEST_QUEUES),
    )?;
    ensure(
        queues <= u64::from(MOST_QUEUES),
        24,
        queues,
        u64::from(MOST_QUEUES),
    )?;
    let size = StoreSize {
        blocks: blocks as u32,
        queues: queues as u32,
    };
    let due = image_len_in(version, size.blocks, size.queues) as u64;
    ensure(len == due, len.min(due), len, due)?;
    Ok(size)
}
