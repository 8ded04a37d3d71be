//! The payload of a live entry, which stands in its slot and in those of its tails.
ghost use Rattle.std.specs.Prelude.{ℕ, ◌≡◌, ◌+◌, ◌*◌, ◌<◌, ◌≤◌, ◌%◌, ◌==◌, [], ◌∷◌, ◌++◌, OnOk};
ghost use Rattle.std.specs.Prelude.{length, map, take, get_or, if◌then◌else◌};
ghost use Rattle.std.specs.Int.{w64, to_le_bytes};
ghost use Rattle.std.specs.List.{flat_map};
ghost use Rattle.arrayvec.specs.ArrayVec.{array_vec_len};
ghost use Rattle.cfs_pmem.specs.AllMoments.{AreDistinct};
ghost use Rattle.cfs_pmem.specs.Images.{patched};
ghost use Rattle.cfs_pmem.specs.Objects.{all_devices};
ghost use Rattle.cfs_slot.specs.Payload.{HaveCause};
ghost use Rattle.cfs_slot.specs.Words.{area_of};
ghost use Rattle.cfs_replay.specs.Reading.{LeavesAll, places_of, words_at};

use crate::reading::{SLOTS, read_word};
use arrayvec::ArrayVec;
use cfs_pmem::{DeviceFault, Power, Region};
use cfs_slot::{PAYLOAD, QUEUE_SLOTS};

/// How many bytes a word has.
const WORD: usize = 8;

/// How many words of payload a slot has.
const AREA_WORDS: usize = 512;

/// The most slots that a payload is looked for in: the head, and one for each number of its queue.
pub const MOST_PLACES: usize = QUEUE_SLOTS + 1;

/// Writes the bytes of the `k`th word of a list of words, the first byte lowest.
fn put_word(bytes: &mut [u8], k: usize, word: u64)
    requires { 8 * k + 8 ≤ length bytes.old }
    ensures { bytes.new ≡ patched bytes.old (8 * k) (to_le_bytes w64 word) }
{
    bytes[WORD * k..WORD * k + WORD].copy_from_slice(&word.to_le_bytes());
}

/// Adds a place, where the lowest bit of these is set.
fn note_place(places: &mut ArrayVec<usize, MOST_PLACES>, place: usize, bits: u64)
    requires { array_vec_len places.old < 17 }
    ensures items { places.new.items ≡
        places.old.items ++ (if bits % 2 == 1 then place ∷ [] else []) }
    ensures len { array_vec_len places.new ≤ array_vec_len places.old + 1 }
{
    if bits % 2 == 1 {
        places.push(place);
    }
}

/// Where the payload of the slot at a place among all slots stands: the place of its own region,
/// and those of its tails, whose numbers are in this set.
pub fn places_of(slot: usize, tails: u64) -> ArrayVec<usize, MOST_PLACES>
    requires { slot < 4294967296 }
    ensures { result.items ≡ places_of slot tails }
{
    let mut places = ArrayVec::new();
    places.push(SLOTS + slot);
    let queue = SLOTS + slot / QUEUE_SLOTS * QUEUE_SLOTS;
    let mut rest = tails;
    for number in 0..QUEUE_SLOTS {
        note_place(&mut places, queue + number, rest);
        rest /= 2;
    }
    places
}

/// Reads the first `len` bytes of a payload that stands in the slots at these places, 4096 bytes in
/// each, into the front of `buffer`. Each word that holds one of them is read once.
pub fn read_payload<R: Region, P: Power>(
    regions: &mut [R],
    power: &mut P,
    places: &[usize],
    len: usize,
    buffer: &mut [u8],
) -> Result<(), DeviceFault>
    requires buffer { length buffer.old ≡ 65536 }
    requires few { len ≤ 65536 }
    requires whole { len ≤ 4096 * length places.now }
    requires places { (k : ℕ) → k < length places.now →
        get_or places.now k 0 < length regions.old }
    requires size { (k : ℕ) → k < length places.now →
        length (words_at (map R.seen regions.old) (get_or places.now k 0)) ≡ 518 }
    requires distinct { AreDistinct (all_devices (map R.seen regions.old)) }
    ensures bytes { OnOk result (take len buffer.new ≡
        take len (flat_map area_of (map (words_at (map R.seen regions.old)) places.now))) }
    ensures buffer { length buffer.new ≡ 65536 }
    ensures leaves { LeavesAll (P.asked power.old) (map R.seen regions.old)
        (P.asked power.new) (map R.seen regions.new) }
    ensures cause { HaveCause (map R.faults regions.old) (map R.faults regions.new) result }
{
    for k in 0..len.div_ceil(WORD) {
        let (place, at) = (places[k / AREA_WORDS], k % AREA_WORDS);
        let word = read_word(regions, power, place, PAYLOAD + at as u32)?;
        put_word(buffer, k, word);
    }
    Ok(())
}
