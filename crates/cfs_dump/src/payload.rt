//! The request of a live entry, whose payload stands in its slot and in those of its tails.
ghost use Rattle.std.specs.Prelude.{◌≡◌, ◌+◌, ◌*◌, ◌<◌, ◌≤◌, ◌++◌, ◌∷◌, [], IfOk, OnOk, get_or};
ghost use Rattle.std.specs.Prelude.{length, take, if◌then◌else◌};
ghost use Rattle.std.specs.List.{flat_map};
ghost use Rattle.cfs_dump.specs.Reads.{HasSlots, heads_in, tails_in};
ghost use Rattle.cfs_dump.specs.Stores.{slots_in};
ghost use Rattle.cfs_image.specs.Image.{word_at};
ghost use Rattle.cfs_slot.specs.Tails.{tails_at};
ghost use Rattle.cfs_slot.specs.Words.{area_of, request_of};

use crate::heads::{count_of, kind_of, offset_of, tails_of};
use cfs_file::{Bytes, NoMemory, Request};
use cfs_image::{FIRST_SLOT, region_at};
use cfs_slot::TRUNCATE;
use cfs_survey::HEAD_WORDS;
use std::alloc::Global;

/// How many slots a queue has.
const QUEUE_SLOTS: u32 = 16;

/// Where the payload of a slot begins behind its first word, and how many bytes it has.
const AREA_AT: usize = 48;

const AREA_LEN: usize = 4096;

/// Appends the bytes of the payload of a slot.
fn push_area(payload: &mut Vec<u8>, bytes: &[u8], slot: u32) -> Result<(), NoMemory>
    requires image { HasSlots bytes.now }
    requires slot { slot < 16 * word_at bytes.now 24 }
    ensures { OnOk result (payload.new.items ≡
        payload.old.items ++ area_of (get_or (slots_in bytes.now) slot [])) }
{
    let from = region_at(FIRST_SLOT + slot) + AREA_AT;
    payload.extend_from_slice(&bytes[from..from + AREA_LEN])?;
    Ok(())
}

/// The same, if the slot is a tail.
fn push_tail(payload: &mut Vec<u8>, bytes: &[u8], slot: u32, is_tail: bool) -> Result<(), NoMemory>
    requires image { HasSlots bytes.now }
    requires slot { slot < 16 * word_at bytes.now 24 }
    ensures { OnOk result (payload.new.items ≡ payload.old.items
        ++ (if is_tail then area_of (get_or (slots_in bytes.now) slot []) else [])) }
{
    if is_tail {
        push_area(payload, bytes, slot)?;
    }
    Ok(())
}

/// Appends the bytes of those slots in the queue of this one whose numbers are in the set.
fn push_tails(payload: &mut Vec<u8>, bytes: &[u8], slot: u32, tails: u64) -> Result<(), NoMemory>
    requires image { HasSlots bytes.now }
    requires slot { slot < 16 * word_at bytes.now 24 }
    ensures { OnOk result (payload.new.items ≡
        payload.old.items ++ flat_map area_of (tails_in bytes.now slot tails)) }
{
    let first = slot / QUEUE_SLOTS * QUEUE_SLOTS;
    let mut rest = tails;
    for number in 0..QUEUE_SLOTS {
        push_tail(payload, bytes, first + number, rest % 2 == 1)?;
        rest /= 2;
    }
    Ok(())
}

/// The first `count` bytes of the payload of a slot and of those tails.
fn payload_of(
    alloc: Global,
    bytes: &[u8],
    slot: u32,
    tails: u64,
    count: u64,
) -> Result<Bytes, NoMemory>
    requires image { HasSlots bytes.now }
    requires slot { slot < 16 * word_at bytes.now 24 }
    ensures { IfOk result (λ payload. payload ≡ take count (flat_map area_of
        (get_or (slots_in bytes.now) slot [] ∷ tails_in bytes.now slot tails))) }
{
    let mut payload = Vec::new(alloc);
    push_area(&mut payload, bytes, slot)?;
    push_tails(&mut payload, bytes, slot, tails)?;
    payload.truncate(count as usize);
    Ok(Bytes::from_vec(payload))
}

/// The request of the entry in a slot. The heads are the words before the payload of every slot.
pub(crate) fn request_at(
    alloc: Global,
    bytes: &[u8],
    heads: &[[u64; HEAD_WORDS]],
    slot: u32,
) -> Result<Request, NoMemory>
    requires image { HasSlots bytes.now }
    requires heads { heads.now ≡ heads_in bytes.now }
    requires slot { slot < 16 * word_at bytes.now 24 }
    ensures { IfOk result (λ request. request ≡
        request_of (get_or (slots_in bytes.now) slot []) (tails_at (slots_in bytes.now) slot)) }
{
    let head = &heads[slot as usize];
    let offset = offset_of(head);
    if kind_of(head) == TRUNCATE {
        return Ok(Request::Truncate { length: offset });
    }
    let bytes = payload_of(alloc, bytes, slot, tails_of(head), count_of(head))?;
    Ok(Request::Write { offset, bytes })
}
