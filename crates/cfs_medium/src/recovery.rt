//! The file that a store recovers, as a plain and slow program.

ghost use Rattle.std.specs.Prelude.{◌≡◌, ◌==◌, ◌<◌, ◌≤◌, [], ◌++◌, drop, get_or, length, nat_le, position, if◌then◌else◌, IfOk, OnOk};
ghost use Rattle.std.specs.List.{find, flat_map, position_or_len};
ghost use Rattle.cfs_slot.specs.Words.{area_of, count_of, is_live, kind_of, payload_of, request_of, tails_of};
ghost use Rattle.cfs_slot.specs.Tails.{tails_at};
ghost use Rattle.cfs_medium.specs.Store.{by_gate, byte_in, byte_of, live_in, put_by_gate, recovered_file, stored_file, tag_of, taken_through};
ghost use Rattle.cfs_medium.specs.Found.{contents_of, store_of};

use cfs_core::Items;
use cfs_file::{BLOCK_LEN, Bytes, FILE_BLOCKS, KIND_UNIT, NoMemory, Request, apply};
use cfs_slot::{
    GATE, INO, KIND, LONG_WRITE, MARK, OFFSET, PAYLOAD, QUEUE_SLOTS, TAILS_UNIT, TRUNCATE,
};
use std::alloc::{AllocError, Global};

/// A block as it was read.
#[derive(Drop)]
pub struct BlockFound {
    /// Its tag word.
    pub tag: u64,
    /// Its bytes.
    pub bytes: Bytes,
}

/// Whether the tag is that of a file block of the inode.
fn is_tag(tag: u64, ino: u64, block: u64) -> bool
    ensures { result ≡ (tag == tag_of ino block) }
{
    tag as u128 == ino as u128 * 65_536 + block as u128 + 1
}

fn byte_or_zero(bytes: &[u8], at: u64) -> u8
    ensures { result ≡ get_or bytes.now at 0 }
{
    match bytes.get(at as usize) {
        Some(byte) => *byte,
        None => 0,
    }
}

/// The byte of the first block that is tagged for a file block of the inode.
fn tagged_byte(blocks: &[BlockFound], ino: u64, block: u64, at: u64) -> u8
    ensures { result ≡ byte_of (find (λ c. c.tag == tag_of ino block) (contents_of blocks.now)) at }
{
    for found in blocks {
        if is_tag(found.tag, ino, block) {
            return byte_or_zero(found.bytes.as_slice(), at);
        }
    }
    0
}

fn byte_at(blocks: &[BlockFound], ino: u64, position: u64) -> u8
    ensures { result ≡ byte_in ino (contents_of blocks.now) position }
{
    if position / BLOCK_LEN < FILE_BLOCKS {
        tagged_byte(blocks, ino, position / BLOCK_LEN, position % BLOCK_LEN)
    } else {
        0
    }
}

fn stored_bytes(
    alloc: Global,
    ino: u64,
    size: u64,
    blocks: &[BlockFound],
) -> Result<Vec<u8>, AllocError>
    ensures { IfOk result (λ bytes. bytes.items ≡ stored_file ino (store_of size [] blocks.now)) }
{
    (0..size).map(|p| byte_at(blocks, ino, p)).collect(alloc)
}

/// A word of a slot, or 0 behind the last.
fn word_at(words: &[u64], at: u32) -> u64
    ensures { result ≡ get_or words.now at 0 }
{
    match words.get(at as usize) {
        Some(word) => *word,
        None => 0,
    }
}

/// Whether the words are a live entry of the inode.
fn is_live(words: &[u64], ino: u64) -> bool
    ensures { result ≡ is_live ino words.now }
{
    word_at(words, GATE) != 0 && word_at(words, MARK) != 1 && word_at(words, INO) == ino
}

/// The words behind the fields.
fn payload_words(words: &[u64]) -> &[u64]
    ensures { result.now ≡ drop 6 words.now }
{
    let from = words.len().min(PAYLOAD as usize);
    &words[from..]
}

/// Appends the bytes of the words behind the fields.
fn push_area(bytes: &mut Vec<u8>, words: &[u64]) -> Result<(), NoMemory>
    ensures { OnOk result (bytes.new.items ≡ bytes.old.items ++ area_of words.now) }
{
    for word in payload_words(words) {
        bytes.extend_from_slice(&word.to_le_bytes())?;
    }
    Ok(())
}

fn kind(words: &[u64]) -> u64
    ensures { result ≡ kind_of words.now }
{
    word_at(words, KIND) % TAILS_UNIT / KIND_UNIT
}

/// How many bytes the entry has whose first slot holds these words.
fn count(words: &[u64]) -> u64
    ensures { result ≡ count_of words.now }
{
    let rest = word_at(words, KIND) % KIND_UNIT;
    if kind(words) == LONG_WRITE {
        rest + 1
    } else {
        rest
    }
}

/// Appends the bytes of the slot at a place, if it is a tail and there is one.
fn push_tail(
    bytes: &mut Vec<u8>,
    slots: &[Items<u64>],
    place: usize,
    is_tail: bool,
) -> Result<(), NoMemory>
    ensures { OnOk result (bytes.new.items ≡
        bytes.old.items ++ (if is_tail then area_of (get_or slots.now place []) else [])) }
{
    if is_tail && let Some(tail) = slots.get(place) {
        push_area(bytes, tail.as_slice())?;
    }
    Ok(())
}

/// Appends the bytes of the tails of the head at a place.
fn push_tails(bytes: &mut Vec<u8>, slots: &[Items<u64>], at: usize) -> Result<(), NoMemory>
    requires { at < length slots.now }
    ensures { OnOk result
        (bytes.new.items ≡ bytes.old.items ++ flat_map area_of (tails_at slots.now at)) }
{
    let first = at / QUEUE_SLOTS * QUEUE_SLOTS;
    let mut tails = word_at(slots[at].as_slice(), KIND) / TAILS_UNIT;
    for number in 0..QUEUE_SLOTS {
        push_tail(bytes, slots, first + number, tails % 2 == 1)?;
        tails /= 2;
    }
    Ok(())
}

fn payload(alloc: Global, slots: &[Items<u64>], at: usize) -> Result<Bytes, NoMemory>
    requires { at < length slots.now }
    ensures { IfOk result
        (λ bytes. bytes ≡ payload_of (get_or slots.now at []) (tails_at slots.now at)) }
{
    let words = slots[at].as_slice();
    let mut bytes = Vec::new(alloc);
    push_area(&mut bytes, words)?;
    push_tails(&mut bytes, slots, at)?;
    bytes.truncate(count(words) as usize);
    Ok(Bytes::from_vec(bytes))
}

/// The request that the slot at a place stands for, with its tails.
fn request_at(alloc: Global, slots: &[Items<u64>], at: usize) -> Result<Request, NoMemory>
    requires { at < length slots.now }
    ensures { IfOk result
        (λ request. request ≡ request_of (get_or slots.now at []) (tails_at slots.now at)) }
{
    let words = slots[at].as_slice();
    if kind(words) == TRUNCATE {
        return Ok(Request::Truncate {
            length: word_at(words, OFFSET),
        });
    }
    let bytes = payload(alloc, slots, at)?;
    Ok(Request::Write {
        offset: word_at(words, OFFSET),
        bytes,
    })
}

/// Where the first entry stands whose gate is not less, if one does.
fn first_not_less(entries: &[(u64, Request)], gate: u64) -> Option<usize>
    ensures { result ≡ position (λ e. nat_le gate e.0) entries.now }
{
    entries.iter().position(|entry| gate <= entry.0)
}

/// The same, or behind the last entry.
fn place_for(entries: &[(u64, Request)], gate: u64) -> usize
    ensures place { result ≡ position_or_len (λ e. nat_le gate e.0) entries.now }
    ensures within { result ≤ length entries.now }
{
    first_not_less(entries, gate).unwrap_or(entries.len())
}

/// Puts an entry before the first one whose gate is not less.
fn put_by_gate(
    entries: &mut Vec<(u64, Request)>,
    gate: u64,
    request: Request,
) -> Result<(), NoMemory>
    ensures { OnOk result (entries.new.items ≡ put_by_gate (gate, request) entries.old.items) }
{
    let at = place_for(entries.as_slice(), gate);
    entries.insert(at, (gate, request))?;
    Ok(())
}

/// The live entries of the inode, in order of their gates.
fn live_by_gate(
    alloc: Global,
    ino: u64,
    slots: &[Items<u64>],
) -> Result<Vec<(u64, Request)>, NoMemory>
    ensures { IfOk result (λ entries. entries.items ≡ by_gate (live_in ino slots.now)) }
{
    let mut entries = Vec::new(alloc);
    for at in (0..slots.len()).rev() {
        let words = slots[at].as_slice();
        if is_live(words, ino) {
            let request = request_at(alloc, slots, at)?;
            put_by_gate(&mut entries, word_at(words, GATE), request)?;
        }
    }
    Ok(entries)
}

fn take_through(file: &mut Bytes, entries: &[(u64, Request)]) -> Result<(), NoMemory>
    ensures { OnOk result (file.new ≡ taken_through file.old entries.now) }
{
    for entry in entries {
        apply(file, &entry.1)?;
    }
    Ok(())
}

/// The file that a mount finds for an inode: its stored file, taken through the live entries of the
/// slots in order of their gates. `size` is its size word in bytes; slots and blocks are all those
/// of the store, in device order. An `Err` is want of memory. Slow: it looks at every block for
/// each byte.
pub fn recover(
    alloc: Global,
    ino: u64,
    size: u64,
    slots: &[Items<u64>],
    blocks: &[BlockFound],
) -> Result<Bytes, NoMemory>
    ensures { IfOk result (λ file. file ≡ recovered_file ino (store_of size slots.now blocks.now)) }
{
    let mut file = Bytes::from_vec(stored_bytes(alloc, ino, size, blocks)?);
    let entries = live_by_gate(alloc, ino, slots)?;
    take_through(&mut file, entries.as_slice())?;
    Ok(file)
}
