//! The tails of long writes.
ghost use Rattle.std.specs.Prelude.{◌≡◌, ◌==◌, ◌&&◌, ◌<◌, ◌≤◌, ◌+◌, ◌%◌, ◌^◌, [], ◌∷◌, ◌++◌};
ghost use Rattle.std.specs.Prelude.{length};
ghost use Rattle.std.specs.Prelude.{IfSome, if◌then◌else◌, is_none, nat_lt};
ghost use Rattle.arrayvec.specs.ArrayVec.{array_vec_len};
ghost use Rattle.std.specs.List.{flat_map, list_all, list_any};
ghost use Rattle.std.proofs.Math.ListN.{get_or};
ghost use Rattle.cfs_image.specs.Checks.{check, damage_of};
ghost use Rattle.cfs_slot.specs.Tails.{numbers_in};
ghost use Rattle.cfs_slot.specs.Words.{count_of, gate_of, tails_of};
ghost use Rattle.cfs_survey.specs.Faults.{reported};
ghost use Rattle.cfs_survey.specs.Slots.{are_tails, device_in, have_common, is_live_entry};
ghost use Rattle.cfs_survey.specs.Slots.{lower_in_queue, owner_of, queue_from, set_checks};
ghost use Rattle.cfs_survey.specs.Slots.{tail_checks, tails_due};

use crate::fault::{Fault, ensure};
use crate::heads::{HEAD_WORDS, count_of, is_live_entry, tails_of};
use arrayvec::ArrayVec;
use cfs_dir::Node;
use cfs_file::BLOCK_LEN;
use cfs_slot::{FIRST_SLOT, QUEUE_SLOTS};

/// The sets of numbers below 16 are below this one.
const SET_END: u64 = 65_536;

/// Adds a number, where the lowest bit of these is set.
fn note_number(numbers: &mut ArrayVec<u32, QUEUE_SLOTS>, number: u32, bits: u64)
    requires { array_vec_len numbers.old < 16 }
    ensures items { numbers.new.items ≡
        numbers.old.items ++ (if bits % 2 == 1 then number ∷ [] else []) }
    ensures len { array_vec_len numbers.new ≤ array_vec_len numbers.old + 1 }
{
    if bits % 2 == 1 {
        numbers.push(number);
    }
}

/// The numbers below 16 that are in a set, ascending.
fn numbers_in(set: u64) -> ArrayVec<u32, QUEUE_SLOTS>
    ensures { result.items ≡ numbers_in set }
{
    let mut numbers = ArrayVec::new();
    let mut rest = set;
    for number in 0..QUEUE_SLOTS as u32 {
        note_number(&mut numbers, number, rest);
        rest /= 2;
    }
    numbers
}

/// The number of the first slot of the same queue.
fn queue_from(slot: u32) -> u32
    ensures from { result ≡ queue_from slot }
    ensures low { result ≤ slot }
{
    slot / QUEUE_SLOTS as u32 * QUEUE_SLOTS as u32
}

/// How many tails a long write of that length takes.
fn tails_due(words: &[u64; HEAD_WORDS]) -> u64
    ensures { result ≡ tails_due words.now }
{
    count_of(words).saturating_sub(1) / BLOCK_LEN
}

/// Whether all of these numbers are above this one.
fn are_above(numbers: &[u32], number: u32) -> bool
    ensures { result ≡ list_all (λ other. nat_lt number other) numbers.now }
{
    numbers.iter().all(|other| number < *other)
}

/// Whether these numbers are above that of the head, and as many as its length takes.
fn are_tails(slot: u32, words: &[u64; HEAD_WORDS], numbers: &[u32]) -> bool
    ensures { result ≡ are_tails slot words.now numbers.now }
{
    tails_of(words) < SET_END
        && are_above(numbers, slot % QUEUE_SLOTS as u32)
        && numbers.len() as u64 == tails_due(words)
}

/// The gate of a slot, or 0 where there is no such slot.
fn gate_at(slots: &[[u64; HEAD_WORDS]], slot: usize) -> u64
    ensures { result ≡ gate_of (get_or slots.now slot []) }
{
    match slots.get(slot) {
        Some(words) => words[0],
        None => 0,
    }
}

/// Checks the gate of the tail of this number. The queue's first slot is `from`.
fn check_tail(at: u64, slots: &[[u64; HEAD_WORDS]], from: u32, number: u32) -> Result<(), Fault>
    requires { at < 2 ^ 48 }
    ensures { reported result ≡ damage_of (tail_checks at slots.now from number) }
{
    let gate = gate_at(slots, from as usize + number as usize);
    ensure(gate == 0, at + 32, gate, 0)
}

/// Checks the gates of the tails of these numbers.
fn check_gates(
    at: u64,
    slots: &[[u64; HEAD_WORDS]],
    from: u32,
    numbers: &[u32],
) -> Result<(), Fault>
    requires { at < 2 ^ 48 }
    ensures { reported result ≡ damage_of (flat_map (tail_checks at slots.now from) numbers.now) }
{
    for number in numbers {
        check_tail(at, slots, from, *number)?;
    }
    Ok(())
}

/// Whether a number is among these.
fn has_number(numbers: &[u32], number: u32) -> bool
    ensures { result ≡ list_any (λ other. other == number) numbers.now }
{
    numbers.iter().any(|other| *other == number)
}

/// Whether one of these numbers is among the others.
fn have_common(numbers: &[u32], others: &[u32]) -> bool
    ensures { result ≡ have_common numbers.now others.now }
{
    numbers.iter().any(|number| has_number(others, *number))
}

/// Whether a slot is live and has one of these tails.
fn owns_one(nodes: &[Node], numbers: &[u32], words: &[u64; HEAD_WORDS]) -> bool
    ensures { result ≡ (is_live_entry nodes.now words.now
        && have_common numbers.now (numbers_in (tails_of words.now))) }
{
    is_live_entry(nodes, words) && have_common(numbers, &numbers_in(tails_of(words)))
}

/// The first of these slots that is live and has one of these tails.
fn owner_of(nodes: &[Node], numbers: &[u32], slots: &[[u64; HEAD_WORDS]]) -> Option<usize>
    ensures index { result ≡ owner_of nodes.now numbers.now slots.now }
    ensures within { IfSome result (λ k. k < length slots.now) }
{
    slots
        .iter()
        .position(|other| owns_one(nodes, numbers, other))
}

/// The device number of one of the slots from a number on, or 0 where there is none.
pub(crate) fn device_in(from: u32, index: Option<usize>) -> u64
    requires from { from < 2 ^ 31 }
    requires index { IfSome index (λ k. k < 2 ^ 31) }
    ensures { result ≡ device_in from index }
{
    match index {
        Some(k) => u64::from(FIRST_SLOT) + u64::from(from) + k as u64,
        None => 0,
    }
}

/// Checks that none of these tails is one of a lower live slot of the same queue.
fn check_owner(
    at: u64,
    nodes: &[Node],
    slots: &[[u64; HEAD_WORDS]],
    slot: u32,
    set: u64,
    numbers: &[u32],
) -> Result<(), Fault>
    requires low { at < 2 ^ 48 }
    requires slot { slot < length slots.now }
    requires few { length slots.now ≤ 2 ^ 31 }
    ensures { reported result ≡ damage_of
        (check (is_none (owner_of nodes.now numbers.now (lower_in_queue slot slots.now))) (at + 32)
        set (device_in (queue_from slot)
        (owner_of nodes.now numbers.now (lower_in_queue slot slots.now))) ∷ []) }
{
    let from = queue_from(slot);
    let owner = owner_of(nodes, numbers, &slots[from as usize..slot as usize]);
    ensure(owner.is_none(), at + 32, set, device_in(from, owner))
}

/// Checks these tails of the head in a slot, whose words begin at this offset.
#[tactic(auto, using(crate::proofs::FirstFaults::first_faults))]
fn check_numbers(
    at: u64,
    nodes: &[Node],
    slots: &[[u64; HEAD_WORDS]],
    slot: u32,
    words: &[u64; HEAD_WORDS],
    numbers: &[u32],
) -> Result<(), Fault>
    requires low { at < 2 ^ 48 }
    requires slot { slot < length slots.now }
    requires few { length slots.now ≤ 2 ^ 31 }
    ensures { reported result ≡
        damage_of (set_checks at nodes.now slots.now slot words.now numbers.now) }
{
    let set = tails_of(words);
    let due = tails_due(words);
    ensure(are_tails(slot, words, numbers), at + 32, set, due)?;
    check_gates(at, slots, queue_from(slot), numbers)?;
    check_owner(at, nodes, slots, slot, set, numbers)
}

/// Checks the tails of the head in a slot, whose words begin at this offset.
pub(crate) fn check_set(
    at: u64,
    nodes: &[Node],
    slots: &[[u64; HEAD_WORDS]],
    slot: u32,
    words: &[u64; HEAD_WORDS],
) -> Result<(), Fault>
    requires low { at < 2 ^ 48 }
    requires slot { slot < length slots.now }
    requires few { length slots.now ≤ 2 ^ 31 }
    ensures { reported result ≡ damage_of (set_checks at nodes.now slots.now slot words.now
        (numbers_in (tails_of words.now))) }
{
    check_numbers(at, nodes, slots, slot, words, &numbers_in(tails_of(words)))
}
