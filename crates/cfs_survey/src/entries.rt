//! The live entries of slots, each by itself and against the lower ones.
ghost use Rattle.std.specs.Prelude.{All, ◌≡◌, ◌==◌, ◌&&◌, ◌<◌, ◌≤◌, ◌+◌, ◌-◌, ◌^◌, [], ◌∷◌, length};
ghost use Rattle.std.specs.Prelude.{IfSome, OnOk, is_some, nat_eq, ◌≢◌};
ghost use Rattle.std.specs.HashMap.{get};
ghost use Rattle.std.proofs.Math.ListN.{get_or};
ghost use Rattle.cfs_image.specs.Checks.{damage_of};
ghost use Rattle.cfs_slot.specs.Words.{count_of, gate_of, ino_of, is_live, kind_of};
ghost use Rattle.cfs_survey.specs.Faults.{checks_from, reported};
ghost use Rattle.cfs_survey.specs.Slots.{block_checks, blocks_touched, end_check, end_of};
ghost use Rattle.cfs_survey.specs.Slots.{entry_checks, first_block, kind_checks, length_checks};
ghost use Rattle.cfs_survey.specs.Slots.{long_checks, open_checks, request_checks, slot_at};
ghost use Rattle.cfs_survey.specs.Slots.{slot_checks, slots_checks, tag_of, touched_checks};
ghost use Rattle.cfs_survey.specs.Slots.{truncate_checks, twin_check, twin_slot, write_checks};
ghost use Rattle.cfs_survey.specs.Tags.{is_file};

use crate::fault::{Fault, ensure};
use crate::heads::{HEAD_WORDS, count_of, is_entry, is_live, kind_of, tails_of};
use crate::tails::{check_set, device_in};
use cfs_dir::Node;
use cfs_file::{BLOCK_LEN, LONGEST_FILE, LONGEST_WRITE};
use cfs_slot::{LONG_WRITE, TRUNCATE, WRITE};
use indexmap::IndexMap;

/// What the inode number is multiplied by in a tag.
const TAG_UNIT: u64 = 65_536;

/// Checks the kind of a slot whose words begin at this offset, and that only a long write has
/// tails.
fn check_kind(at: u64, words: &[u64; HEAD_WORDS]) -> Result<(), Fault>
    requires { at < 2 ^ 48 }
    ensures { reported result ≡ damage_of (kind_checks at words.now) }
{
    let kind = kind_of(words);
    let tails = tails_of(words);
    ensure(
        WRITE <= kind && kind <= LONG_WRITE,
        at + 32,
        words[4],
        LONG_WRITE,
    )?;
    ensure(kind == LONG_WRITE || tails == 0, at + 32, tails, 0)
}

/// Checks how many bytes of payload a slot has.
fn check_length(at: u64, words: &[u64; HEAD_WORDS], least: u64, most: u64) -> Result<(), Fault>
    requires { at < 2 ^ 48 }
    ensures { reported result ≡ damage_of (length_checks at words.now least most) }
{
    let len = count_of(words);
    ensure(least <= len, at + 32, len, least)?;
    ensure(len <= most, at + 32, len, most)
}

/// Checks where a write ends.
fn check_end(at: u64, words: &[u64; HEAD_WORDS]) -> Result<(), Fault>
    requires { at < 2 ^ 48 }
    ensures named { reported result ≡ damage_of (end_check at words.now ∷ []) }
    ensures end { OnOk result (end_of words.now ≤ 1048576) }
{
    let end = words[3].saturating_add(count_of(words));
    ensure(end <= LONGEST_FILE, at + 24, end, LONGEST_FILE)
}

/// Checks a truncate.
fn check_truncate(at: u64, words: &[u64; HEAD_WORDS]) -> Result<(), Fault>
    requires { at < 2 ^ 48 }
    ensures { reported result ≡ damage_of (truncate_checks at words.now) }
{
    let len = count_of(words);
    ensure(len == 0, at + 32, len, 0)?;
    ensure(words[3] <= LONGEST_FILE, at + 24, words[3], LONGEST_FILE)
}

/// Checks a write that one slot holds.
#[tactic(auto, using(crate::proofs::FirstFaults::first_faults))]
fn check_write(at: u64, words: &[u64; HEAD_WORDS]) -> Result<(), Fault>
    requires { at < 2 ^ 48 }
    ensures named { reported result ≡ damage_of (write_checks at words.now) }
    ensures end { OnOk result (end_of words.now ≤ 1048576) }
{
    check_length(at, words, 1, BLOCK_LEN)?;
    check_end(at, words)
}

/// Checks a long write, whose head is in this slot.
#[tactic(auto, using(crate::proofs::FirstFaults::first_faults))]
fn check_long(
    at: u64,
    nodes: &[Node],
    slots: &[[u64; HEAD_WORDS]],
    slot: u32,
    words: &[u64; HEAD_WORDS],
) -> Result<(), Fault>
    requires low { at < 2 ^ 48 }
    requires slot { slot < length slots.now }
    requires few { length slots.now ≤ 2 ^ 31 }
    ensures named { reported result ≡
        damage_of (long_checks at nodes.now slots.now slot words.now) }
    ensures end { OnOk result (end_of words.now ≤ 1048576) }
{
    check_length(at, words, BLOCK_LEN + 1, LONGEST_WRITE)?;
    check_set(at, nodes, slots, slot, words)?;
    check_end(at, words)
}

/// Checks the request of a slot by its kind.
fn check_request(
    at: u64,
    nodes: &[Node],
    slots: &[[u64; HEAD_WORDS]],
    slot: u32,
    words: &[u64; HEAD_WORDS],
) -> Result<(), Fault>
    requires low { at < 2 ^ 48 }
    requires slot { slot < length slots.now }
    requires few { length slots.now ≤ 2 ^ 31 }
    ensures named { reported result ≡
        damage_of (request_checks at nodes.now slots.now slot words.now) }
    ensures end { OnOk result (kind_of words.now ≢ 2 → end_of words.now ≤ 1048576) }
{
    let kind = kind_of(words);
    if kind == TRUNCATE {
        return check_truncate(at, words);
    }
    if kind == LONG_WRITE {
        return check_long(at, nodes, slots, slot, words);
    }
    check_write(at, words)
}

/// Whether another slot is live with the same inode number and gate.
fn is_twin(words: &[u64; HEAD_WORDS], other: &[u64; HEAD_WORDS]) -> bool
    ensures { result ≡
        (is_live (ino_of words.now) other.now && (gate_of other.now == gate_of words.now)) }
{
    is_live(other, words[2]) && other[0] == words[0]
}

/// The first of these slots that is.
fn twin_slot(words: &[u64; HEAD_WORDS], slots: &[[u64; HEAD_WORDS]]) -> Option<usize>
    ensures index { result ≡ twin_slot words.now slots.now }
    ensures within { IfSome result (λ k. k < length slots.now) }
{
    slots.iter().position(|other| is_twin(words, other))
}

/// Checks that no lower slot is live with the same inode number and gate.
fn check_twin(
    at: u64,
    slots: &[[u64; HEAD_WORDS]],
    slot: u32,
    words: &[u64; HEAD_WORDS],
) -> Result<(), Fault>
    requires slot { slot < length slots.now }
    requires few { length slots.now ≤ 2 ^ 31 }
    ensures { reported result ≡ damage_of (twin_check at slots.now slot words.now ∷ []) }
{
    let twin = twin_slot(words, &slots[..slot as usize]);
    ensure(twin.is_none(), at, words[0], device_in(0, twin))
}

/// Whether a file's block has a block of the store, by this map of tags.
fn is_mapped(blocks: &IndexMap<u64, u32>, ino: u64, block: u64) -> bool
    requires ino { ino < 2 ^ 32 }
    requires block { block < 2 ^ 32 }
    ensures { result ≡ is_some (get nat_eq blocks.now (tag_of ino block)) }
{
    blocks.contains_key(&(ino * TAG_UNIT + block + 1))
}

/// Checks that a file block which a write touches has a block of the store.
fn check_block(
    at: u64,
    blocks: &IndexMap<u64, u32>,
    words: &[u64; HEAD_WORDS],
    block: u64,
) -> Result<(), Fault>
    requires low { at < 2 ^ 48 }
    requires ino { ino_of words.now < 2 ^ 32 }
    requires block { block < 2 ^ 32 }
    ensures { reported result ≡ damage_of
        (block_checks at (λ tag. is_some (get nat_eq blocks.now tag)) words.now block) }
{
    ensure(is_mapped(blocks, words[2], block), at + 24, block, 0)
}

/// Checks these file blocks, which a write touches.
fn check_range(
    at: u64,
    blocks: &IndexMap<u64, u32>,
    words: &[u64; HEAD_WORDS],
    first: u64,
    end: u64,
) -> Result<(), Fault>
    requires low { at < 2 ^ 48 }
    requires ino { ino_of words.now < 2 ^ 32 }
    requires order { first ≤ end }
    requires end { end < 2 ^ 32 }
    ensures { reported result ≡ damage_of
        (checks_from (block_checks at (λ tag. is_some (get nat_eq blocks.now tag)) words.now)
        first (end - first)) }
{
    for block in first..end {
        check_block(at, blocks, words, block)?;
    }
    Ok(())
}

/// Checks each file block that a write touches.
fn check_blocks(
    at: u64,
    blocks: &IndexMap<u64, u32>,
    words: &[u64; HEAD_WORDS],
) -> Result<(), Fault>
    requires low { at < 2 ^ 48 }
    requires ino { ino_of words.now < 2 ^ 32 }
    requires end { end_of words.now ≤ 1048576 }
    ensures { reported result ≡ damage_of
        (checks_from (block_checks at (λ tag. is_some (get nat_eq blocks.now tag)) words.now)
        (first_block words.now) (blocks_touched words.now)) }
{
    let end = words[3] + count_of(words);
    check_range(
        at,
        blocks,
        words,
        words[3] / BLOCK_LEN,
        (end + 4095) / BLOCK_LEN,
    )
}

/// Checks each file block that an entry's write touches; a truncate needs none.
fn check_touched(
    at: u64,
    blocks: &IndexMap<u64, u32>,
    words: &[u64; HEAD_WORDS],
) -> Result<(), Fault>
    requires low { at < 2 ^ 48 }
    requires ino { ino_of words.now < 2 ^ 32 }
    requires end { kind_of words.now ≢ 2 → end_of words.now ≤ 1048576 }
    ensures { reported result ≡ damage_of
        (touched_checks at (λ tag. is_some (get nat_eq blocks.now tag)) words.now) }
{
    if kind_of(words) == TRUNCATE {
        return Ok(());
    }
    check_blocks(at, blocks, words)
}

/// Checks an entry that is no no-op. The words of its slot begin at this offset.
#[tactic(auto, using(crate::proofs::FirstFaults::first_faults))]
fn check_entry(
    at: u64,
    nodes: &[Node],
    blocks: &IndexMap<u64, u32>,
    slots: &[[u64; HEAD_WORDS]],
    slot: u32,
) -> Result<(), Fault>
    requires low { at < 2 ^ 48 }
    requires slot { slot < length slots.now }
    requires few { length slots.now ≤ 2 ^ 31 }
    requires ino { ino_of (get_or slots.now slot []) < 2 ^ 32 }
    ensures { reported result ≡ damage_of
        (entry_checks at nodes.now (λ tag. is_some (get nat_eq blocks.now tag)) slots.now slot
        (get_or slots.now slot [])) }
{
    let words = slots[slot as usize];
    check_kind(at, &words)?;
    check_request(at, nodes, slots, slot, &words)?;
    check_twin(at, slots, slot, &words)?;
    check_touched(at, blocks, &words)
}

/// Checks an open slot of a file. Its words begin at this offset.
fn check_open(
    at: u64,
    nodes: &[Node],
    blocks: &IndexMap<u64, u32>,
    slots: &[[u64; HEAD_WORDS]],
    slot: u32,
) -> Result<(), Fault>
    requires low { at < 2 ^ 48 }
    requires slot { slot < length slots.now }
    requires few { length slots.now ≤ 2 ^ 31 }
    requires ino { ino_of (get_or slots.now slot []) < 2 ^ 32 }
    ensures { reported result ≡ damage_of
        (open_checks at nodes.now (λ tag. is_some (get nat_eq blocks.now tag)) slots.now slot
        (get_or slots.now slot [])) }
{
    let mark = slots[slot as usize][1];
    ensure(mark <= 1, at + 8, mark, 1)?;
    if mark == 1 {
        return Ok(());
    }
    check_entry(at, nodes, blocks, slots, slot)
}

/// Checks a slot, of which the first begins at this offset.
fn check_slot(
    at: u64,
    nodes: &[Node],
    blocks: &IndexMap<u64, u32>,
    slots: &[[u64; HEAD_WORDS]],
    slot: u32,
) -> Result<(), Fault>
    requires low { at < 2 ^ 32 }
    requires inos { All (λ node. node.ino < 2 ^ 32) nodes.now }
    requires slot { slot < length slots.now }
    requires few { length slots.now ≤ 2 ^ 31 }
    ensures { reported result ≡ damage_of
        (slot_checks at nodes.now (λ tag. is_some (get nat_eq blocks.now tag)) slots.now slot) }
{
    if is_entry(nodes, &slots[slot as usize]) {
        let at = at + 4144 * slot as u64;
        return check_open(at, nodes, blocks, slots, slot);
    }
    Ok(())
}

/// Checks each slot, in device order. The first begins at this offset.
pub(crate) fn check_slots(
    at: u64,
    nodes: &[Node],
    blocks: &IndexMap<u64, u32>,
    slots: &[[u64; HEAD_WORDS]],
) -> Result<(), Fault>
    requires low { at < 2 ^ 32 }
    requires inos { All (λ node. node.ino < 2 ^ 32) nodes.now }
    requires few { length slots.now ≤ 2 ^ 31 }
    ensures { reported result ≡ damage_of
        (slots_checks at nodes.now (λ tag. is_some (get nat_eq blocks.now tag)) slots.now) }
{
    for slot in 0..slots.len() as u32 {
        check_slot(at, nodes, blocks, slots, slot)?;
    }
    Ok(())
}
