//! How the payload of a request is read.
ghost use Rattle.std.specs.Prelude.{◌≡◌, ◌+◌, ◌*◌, ◌<◌, ◌≤◌, [], ◌∷◌, IsTrue, length, map, take, drop, OnOk};
ghost use Rattle.std.specs.Int.{w64, to_le_bytes};
ghost use Rattle.std.specs.List.{flat_map};
ghost use Rattle.std.proofs.Math.ListN.{get_or};
ghost use Rattle.cfs_pmem.specs.Faults.{HasCause};
ghost use Rattle.cfs_pmem.specs.Images.{devices_of, patched, words_of};
ghost use Rattle.cfs_slot.specs.Payload.{area_reads, payload_reads, AsksOnly, DoesReads, HaveCause};
ghost use Rattle.cfs_slot.specs.Reads.{ReadsSlot};
ghost use Rattle.cfs_slot.specs.Regions.{of_parts};
ghost use Rattle.cfs_slot.specs.Words.{area_of};

use crate::layout::{MOST_TAILS, PAYLOAD};
use crate::live::Live;
use crate::part::Part;
use cfs_file::BLOCK_LEN;
use cfs_pmem::{DeviceFault, Power, Region};
use cfs_vec::FixedVec;

/// How many bytes a slot holds of a payload.
const AREA: usize = BLOCK_LEN as usize;

/// How many bytes a word has.
const WORD: usize = 8;

/// Writes the bytes of the `k`th word of a list of words, the first byte lowest.
#[inline]
fn put_word(area: &mut [u8], k: usize, word: u64)
    requires { 8 * k + 8 ≤ length area.old }
    ensures { area.new ≡ patched area.old (8 * k) (to_le_bytes w64 word) }
{
    area[WORD * k..WORD * k + WORD].copy_from_slice(&word.to_le_bytes());
}

/// Reads the bytes of a slot's payload from `from` on that `out` has room for: each word that holds
/// one of them, once.
fn read_area<R: Region, P: Power>(
    region: &mut R,
    power: &mut P,
    from: usize,
    out: &mut [u8],
) -> Result<(), DeviceFault>
    requires size { length (words_of (R.seen region.old)) ≡ 518 }
    requires within { from + length out.old ≤ 4096 }
    ensures bytes { OnOk result
        (out.new ≡ take (length out.old) (drop from (area_of (words_of (R.seen region.old))))) }
    ensures seen { R.seen region.new ≡ R.seen region.old }
    ensures does { IsTrue R.obeys_power →
        DoesReads (area_reads (R.seen region.old).device from (from + length out.old)) result
        (P.asked power.old) (P.asked power.new) }
    ensures asks { AsksOnly (devices_of (R.seen region.old))
        (P.asked power.old) (P.asked power.new) }
    ensures cause { HasCause (R.faults region.old) (R.faults region.new) result }
{
    let mut area = [0; AREA];
    let to = from + out.len();
    for k in from / WORD..to.div_ceil(WORD) {
        let word = region.read(power, PAYLOAD + k as u32)?;
        put_word(&mut area, k, word);
    }
    out.copy_from_slice(&area[from..to]);
    Ok(())
}

/// The same of a tail.
fn read_tail<R: Region + Drop, P: Power>(
    tails: &mut FixedVec<Part<R>, MOST_TAILS>,
    power: &mut P,
    tail: usize,
    from: usize,
    out: &mut [u8],
) -> Result<(), DeviceFault>
    requires tail { tail < length (of_parts tails.old) }
    requires within { from + length out.old ≤ 4096 }
    ensures { ReadsSlot R.seen R.faults R.obeys_power tail from result
        (P.asked power.old) (of_parts tails.old) out.old (P.asked power.new) (of_parts tails.new)
        out.new }
{
    match &mut tails.cells.as_mut_slice()[tail] {
        Some(part) => read_area(&mut part.region, power, from, out),
        None => unreachable!(),
    }
}

impl<R: Region + Drop> Live<R> {
    ghost use Rattle.cfs_slot.specs.Regions.{place_of, devices_in};
    ghost use Rattle.cfs_slot.specs.Reads.{regions_of, payload_in};

    /// The same of the head, which has number 0, or of a tail.
    fn read_slot<P: Power>(
        &mut self,
        power: &mut P,
        slot: usize,
        from: usize,
        out: &mut [u8],
    ) -> Result<(), DeviceFault>
        requires slot { slot < length (regions_of self.old) }
        requires within { from + length out.old ≤ 4096 }
        ensures reads { ReadsSlot R.seen R.faults R.obeys_power slot from result
            (P.asked power.old) (regions_of self.old) out.old (P.asked power.new)
            (regions_of self.new) out.new }
        ensures place { place_of self.new ≡ place_of self.old }
    {
        match slot.checked_sub(1) {
            Some(tail) => read_tail(&mut self.tails, power, tail, from, out),
            None => read_area(&mut self.region, power, from, out),
        }
    }

    /// Reads the payload's bytes from `from` on that `out` has room for, which are at most 4096:
    /// each word that holds one of them, once, in order, those of the head first. Makes no writing
    /// step. Refuses for a device fault alone; `out` may then hold any bytes.
    pub fn read_payload<P: Power>(
        &mut self,
        power: &mut P,
        from: usize,
        out: &mut [u8],
    ) -> Result<(), DeviceFault>
        requires some { 0 < length out.old }
        requires few { length out.old ≤ 4096 }
        requires within { from + length out.old ≤ length (payload_in R.seen self.old) }
        ensures bytes { OnOk result
            (out.new ≡ take (length out.old) (drop from (payload_in R.seen self.old))) }
        ensures seen { map R.seen (regions_of self.new) ≡ map R.seen (regions_of self.old) }
        ensures place { place_of self.new ≡ place_of self.old }
        ensures does { IsTrue R.obeys_power →
            DoesReads
            (payload_reads (devices_in R.seen (regions_of self.old)) from (length out.old)) result
            (P.asked power.old) (P.asked power.new) }
        ensures asks { AsksOnly (flat_map devices_of (map R.seen (regions_of self.old)))
            (P.asked power.old) (P.asked power.new) }
        ensures cause { HaveCause (map R.faults (regions_of self.old))
            (map R.faults (regions_of self.new)) result }
    {
        let len = out.len();
        let at = from % AREA;
        let middle = len.min(AREA - at);
        let (near, far) = out.split_at_mut(middle);
        self.read_slot(power, from / AREA, at, near)?;
        if middle < len {
            self.read_slot(power, from / AREA + 1, 0, far)?;
        }
        Ok(())
    }
}
