//! What recovery finds in the slots of a request.

use crate::staging::INO;
use cfs_file::{Bytes, NoMemory, Request};
use cfs_pmem::{MemRegion, Pick};
use cfs_slot::QUEUE_SLOTS;
use cfs_vec::FixedVec;
use std::alloc::Global;

/// A request with the number in its gate.
#[derive(Drop)]
pub(crate) struct Entry {
    pub(crate) gate: u64,
    pub(crate) request: Request,
}

/// A word, 0 where there is none.
pub(crate) fn word_at(words: &[u64], at: usize) -> u64 {
    words.get(at).copied().unwrap_or(0)
}

/// The payload of a slot behind other bytes.
fn add_payload(bytes: &mut Vec<u8>, words: &[u64]) -> Result<(), NoMemory> {
    for word in words.iter().skip(6) {
        bytes.extend_from_slice(&word.to_le_bytes())?;
    }
    Ok(())
}

/// The bytes of a write, whose head says how many there are: one less than the number that it
/// holds, where it is a long one.
fn cut(mut bytes: Vec<u8>, count: u64, is_long: bool) -> Bytes {
    let count = if is_long {
        count.saturating_add(1)
    } else {
        count
    };
    bytes.truncate(count as usize);
    Bytes::from_vec(bytes)
}

/// The live entry of a head and the payload of all its slots: none where its gate is closed or its
/// mark is set.
fn entry_in(words: &[u64], payload: Vec<u8>) -> Option<Entry> {
    let gate = word_at(words, 0);
    if gate == 0 || word_at(words, 1) == 1 || word_at(words, 2) != INO {
        return None;
    }
    let offset = word_at(words, 3);
    let kind = word_at(words, 4) / 65_536 % 65_536;
    let count = word_at(words, 4) % 65_536;
    let request = if kind == 2 {
        Request::Truncate { length: offset }
    } else {
        let bytes = cut(payload, count, kind == 3);
        Request::Write { offset, bytes }
    };
    Some(Entry { gate, request })
}

/// The live entry that a crash of a pick leaves in the slots of a request, the head's first.
pub(crate) fn entry_left(
    alloc: Global,
    mut regions: FixedVec<MemRegion, QUEUE_SLOTS>,
    pick: u64,
) -> Result<Option<Entry>, NoMemory> {
    regions.reverse();
    let Some(mut head) = regions.pop() else {
        return Ok(None);
    };
    head.crash(&mut Pick::new(pick));
    let mut payload = Vec::new(alloc);
    add_payload(&mut payload, head.words())?;
    for _ in 1..QUEUE_SLOTS {
        if let Some(mut tail) = regions.pop() {
            tail.crash(&mut Pick::new(pick));
            add_payload(&mut payload, tail.words())?;
        }
    }
    Ok(entry_in(head.words(), payload))
}
