//! Words of regions are read.
ghost use Rattle.std.specs.Prelude.{◌≡◌, ◌+◌, ◌<◌, length, map, get_or, IfOk};
ghost use Rattle.cfs_pmem.specs.AllMoments.{AreDistinct};
ghost use Rattle.cfs_pmem.specs.Objects.{all_devices};
ghost use Rattle.cfs_slot.specs.Payload.{HaveCause};
ghost use Rattle.cfs_slot.specs.Words.{found_of};
ghost use Rattle.cfs_replay.specs.Reading.{LeavesAll, words_at};

use cfs_pmem::{DeviceFault, Power, Region};
use cfs_slot::{FIRST_SLOT, Found, found};

/// The place of the first slot among the regions.
pub(crate) const SLOTS: usize = FIRST_SLOT as usize;

/// Reads a word of the region at a place.
pub fn read_word<R: Region, P: Power>(
    regions: &mut [R],
    power: &mut P,
    place: usize,
    at: u32,
) -> Result<u64, DeviceFault>
    requires place { place < length regions.old }
    requires within { at < length (words_at (map R.seen regions.old) place) }
    requires distinct { AreDistinct (all_devices (map R.seen regions.old)) }
    ensures word { IfOk result
        (λ word. word ≡ get_or (words_at (map R.seen regions.old) place) at 0) }
    ensures leaves { LeavesAll (P.asked power.old) (map R.seen regions.old)
        (P.asked power.new) (map R.seen regions.new) }
    ensures cause { HaveCause (map R.faults regions.old) (map R.faults regions.new) result }
{
    regions[place].read(power, at)
}

/// Reads the first words of the slot at a place among all slots, by name.
pub fn read_found<R: Region, P: Power>(
    regions: &mut [R],
    power: &mut P,
    slot: usize,
) -> Result<Found, DeviceFault>
    requires place { 323 + slot < length regions.old }
    requires size { length (words_at (map R.seen regions.old) (323 + slot)) ≡ 518 }
    requires distinct { AreDistinct (all_devices (map R.seen regions.old)) }
    ensures fields { IfOk result
        (λ found. found ≡ found_of (words_at (map R.seen regions.old) (323 + slot))) }
    ensures leaves { LeavesAll (P.asked power.old) (map R.seen regions.old)
        (P.asked power.new) (map R.seen regions.new) }
    ensures cause { HaveCause (map R.faults regions.old) (map R.faults regions.new) result }
{
    found(&mut regions[SLOTS + slot], power)
}
