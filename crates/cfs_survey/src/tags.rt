//! The tags of blocks.
ghost use Rattle.std.specs.Prelude.{ℕ, List, ◌≡◌, ◌+◌, ◌<◌, ◌≤◌, ◌^◌, ◌/◌, IfErr, IfOk, None, OnOk};
ghost use Rattle.std.specs.Prelude.{length, nat_eq, true};
ghost use Rattle.std.proofs.Math.ListN.{get_or};
ghost use Rattle.std.specs.HashMap.{get};
ghost use Rattle.cfs_image.specs.Checks.{damage_of};
ghost use Rattle.cfs_survey.specs.Faults.{reported};
ghost use Rattle.cfs_survey.specs.Mapped.{IsBlockMap};
ghost use Rattle.cfs_survey.specs.Refusals.{Refuses};
ghost use Rattle.cfs_survey.specs.Tags.{block_of, is_block_tag, is_file, own_checks, tag_checks};
ghost use Rattle.cfs_survey.specs.Tags.{tags_checks};

use crate::fault::{Fault, ensure};
use crate::places::node_of;
use crate::refusal::SurveyRefusal;
use cfs_dir::Node;
use indexmap::IndexMap;
use std::alloc::Global;

/// What the inode number is multiplied by in a tag, beside the number of the file's block plus 1.
const TAG_UNIT: u64 = 65_536;

/// How many blocks a file has at most.
const FILE_BLOCKS: u64 = 256;

/// Whether an inode number is that of a file.
pub(crate) fn is_file(nodes: &[Node], ino: u64) -> bool
    ensures { result ≡ is_file nodes.now ino }
{
    match node_of(nodes, ino) {
        Some(node) => !node.kind.is_directory(),
        None => false,
    }
}

/// Whether a tag names a block that a file can have.
fn is_block_tag(tag: u64) -> bool
    ensures { result ≡ is_block_tag tag }
{
    (1..=FILE_BLOCKS).contains(&(tag % TAG_UNIT))
}

/// The block that this map finds for a tag.
fn block_of(blocks: &IndexMap<u64, u32>, tag: u64) -> Option<u32>
    ensures { result ≡ get nat_eq blocks.now tag }
{
    blocks.get(&tag).copied()
}

/// Checks a block's tag, which is one of a file; `below` is the lower block that has it.
fn check_own(at: u64, block: u32, tag: u64, below: Option<u32>) -> Result<(), Fault>
    requires { at < 2 ^ 32 }
    ensures { (tags : List ℕ) → below ≡ block_of tags block tag →
        reported result ≡ damage_of (own_checks at tags block tag) }
{
    let at = at + 4104 * u64::from(block);
    ensure(is_block_tag(tag), at, tag, FILE_BLOCKS)?;
    ensure(below.is_none(), at, tag, u64::from(below.unwrap_or(0)))
}

/// Checks the tag of a block, which is one of a file, and notes the block; the map has those below.
fn note_tag(
    at: u64,
    nodes: &[Node],
    tags: &[u64],
    block: u32,
    blocks: &mut IndexMap<u64, u32>,
) -> Result<(), SurveyRefusal>
    requires low { at < 2 ^ 32 }
    requires block { block < length tags.now }
    requires file { is_file nodes.now (get_or tags.now block 0 / 65536) ≡ true }
    requires below { IsBlockMap nodes.now tags.now block blocks.old }
    ensures sound { OnOk result
        (damage_of (own_checks at tags.now block (get_or tags.now block 0)) ≡ None) }
    ensures noted { OnOk result (IsBlockMap nodes.now tags.now (block + 1) blocks.new) }
    ensures named { IfErr result
        (Refuses (own_checks at tags.now block (get_or tags.now block 0))) }
{
    let tag = tags[block as usize];
    check_own(at, block, tag, block_of(blocks, tag))?;
    blocks.insert(tag, block)?;
    Ok(())
}

/// Checks the tag of a block, where it is one of a file, and notes the block; the map has those
/// below.
fn read_tag(
    at: u64,
    nodes: &[Node],
    tags: &[u64],
    block: u32,
    blocks: &mut IndexMap<u64, u32>,
) -> Result<(), SurveyRefusal>
    requires low { at < 2 ^ 32 }
    requires block { block < length tags.now }
    requires below { IsBlockMap nodes.now tags.now block blocks.old }
    ensures sound { OnOk result (damage_of (tag_checks at nodes.now tags.now block) ≡ None) }
    ensures noted { OnOk result (IsBlockMap nodes.now tags.now (block + 1) blocks.new) }
    ensures named { IfErr result (Refuses (tag_checks at nodes.now tags.now block)) }
{
    if is_file(nodes, tags[block as usize] / TAG_UNIT) {
        return note_tag(at, nodes, tags, block, blocks);
    }
    Ok(())
}

/// The block of each tag that is one of a file. The tags are those of all blocks, at most 2^31, of
/// which the first begins at this offset of an image, below 2^32.
///
/// `Damaged` names the first check that fails, block by block: the tag names one of the 256 blocks
/// of a file, and no lower block has it. One look-up a block.
pub fn read_tags(
    alloc: Global,
    at: u64,
    nodes: &[Node],
    tags: &[u64],
) -> Result<IndexMap<u64, u32>, SurveyRefusal>
    requires low { at < 2 ^ 32 }
    requires few { length tags.now ≤ 2 ^ 31 }
    ensures sound { OnOk result (damage_of (tags_checks at nodes.now tags.now) ≡ None) }
    ensures blocks { IfOk result (IsBlockMap nodes.now tags.now (length tags.now)) }
    ensures named { IfErr result (Refuses (tags_checks at nodes.now tags.now)) }
{
    let mut blocks = IndexMap::with_capacity(alloc, tags.len())?;
    for block in 0..tags.len() as u32 {
        read_tag(at, nodes, tags, block, &mut blocks)?;
    }
    Ok(blocks)
}
