//! The stored bytes of a file.
ghost use Rattle.std.specs.Prelude.{◌≡◌, ◌+◌, ◌<◌, ◌≤◌, ◌^◌, ◌++◌, None, IfOk, OnOk, length};
ghost use Rattle.std.specs.Prelude.{map, nat_eq, nat_lt, if◌then◌else◌};
ghost use Rattle.std.specs.HashMap.{get};
ghost use Rattle.std.specs.List.{range_with_len};
ghost use Rattle.std.specs.Option.{ForSome, option_map};
ghost use Rattle.cfs_dump.specs.Reads.{FindsBlocks, front_of};
ghost use Rattle.cfs_dump.specs.Stores.{blocks_in, content_in};
ghost use Rattle.cfs_image.specs.Image.{word_at};
ghost use Rattle.cfs_image.specs.Layout.{block_at};
ghost use Rattle.cfs_medium.specs.Store.{block_for, byte_in, tag_of};

use cfs_file::{BLOCK_LEN, FILE_BLOCKS, NoMemory};
use cfs_image::block_at;
use indexmap::IndexMap;
use std::alloc::Global;

/// What the inode number is multiplied by in a tag.
const TAG_UNIT: u64 = 65_536;

/// How many bytes the tag of a block has.
const TAG_LEN: usize = 8;

/// The block that is tagged for a block of a file, if there is one.
fn block_for(found: &IndexMap<u64, u32>, ino: u64, block: u64) -> Option<u32>
    requires { ino < 2 ^ 32 }
    ensures { result ≡
        (if nat_lt block 256 then get nat_eq found.now (tag_of ino block) else None) }
{
    if block < FILE_BLOCKS {
        found.get(&(ino * TAG_UNIT + block + 1)).copied()
    } else {
        None
    }
}

/// Appends the first `len` bytes of a block, or zeros where there is none.
fn push_block(
    file: &mut Vec<u8>,
    bytes: &[u8],
    queues: u32,
    block: Option<u32>,
    len: usize,
) -> Result<(), NoMemory>
    requires queues { queues ≡ word_at bytes.now 24 }
    requires len { len ≤ 4096 }
    requires within { ForSome block (λ block. block_at queues (block + 1) ≤ length bytes.now) }
    ensures { OnOk result (file.new.items ≡
        file.old.items ++ front_of (option_map (content_in bytes.now) block) len) }
{
    match block {
        Some(block) => {
            let from = block_at(queues, block) + TAG_LEN;
            file.extend_from_slice(&bytes[from..from + len])?;
        }
        None => file.resize(file.len() + len, 0)?,
    }
    Ok(())
}

/// The stored bytes of a file of this size, of which the map has the block of each tag.
pub(crate) fn stored_bytes(
    alloc: Global,
    bytes: &[u8],
    queues: u32,
    found: &IndexMap<u64, u32>,
    ino: u64,
    size: u64,
) -> Result<Vec<u8>, NoMemory>
    requires queues { queues ≡ word_at bytes.now 24 }
    requires ino { ino < 2 ^ 32 }
    requires found { FindsBlocks bytes.now ino found.now }
    ensures { IfOk result (λ file. file.items ≡
        map (byte_in ino (blocks_in bytes.now)) (range_with_len 0 size)) }
{
    let mut file = Vec::new(alloc);
    for block in 0..size.div_ceil(BLOCK_LEN) {
        let len = (size - BLOCK_LEN * block).min(BLOCK_LEN) as usize;
        push_block(&mut file, bytes, queues, block_for(found, ino, block), len)?;
    }
    Ok(file)
}
