//! The words of an entry: the size word of its file, and its gate.
ghost use Rattle.std.specs.Prelude.{◌≡◌, ◌≢◌, ◌+◌, ◌<◌, ℕ, length, map, slice_get, OnOk};
ghost use Rattle.cfs_pmem.specs.AllMoments.{AreDistinct};
ghost use Rattle.cfs_pmem.specs.Images.{words_of};
ghost use Rattle.cfs_pmem.specs.Objects.{all_devices, seen_at};
ghost use Rattle.cfs_pmem.specs.WordOps.{SetsWord};
ghost use Rattle.cfs_slot.specs.Payload.{HaveCause};
ghost use Rattle.cfs_home.specs.Calls.{SetsFirst};
ghost use Rattle.cfs_recover.specs.Words.{lengths_of, with_first};

use cfs_pmem::{DeviceFault, Power, Region, set_word};

/// The device number of the first size word: the regions of the tree stand below.
const SIZES: usize = 67;

/// That of the first slot: there are 256 size words.
const SLOTS: usize = 323;

/// Sets the first word of the region at a place, and persists it.
fn set_first<R: Region, P: Power>(
    regions: &mut [R],
    power: &mut P,
    place: usize,
    word: u64,
) -> Result<(), DeviceFault>
    requires place { place < length regions.old }
    requires within { 0 < length (words_of (seen_at (map R.seen regions.old) place)) }
    requires distinct { AreDistinct (all_devices (map R.seen regions.old)) }
    ensures ok { OnOk result
        (map R.seen regions.new ≡ with_first place word (map R.seen regions.old)) }
    ensures set { SetsWord R.obeys_power 0 word result
        (P.asked power.old) (seen_at (map R.seen regions.old) place)
        (P.asked power.new) (seen_at (map R.seen regions.new) place) }
    ensures others { (k : ℕ) → k ≢ place → slice_get regions.new k ≡ slice_get regions.old k }
    ensures moments { SetsFirst place word (P.asked power.old) (map R.seen regions.old)
        (P.asked power.new) (map R.seen regions.new) }
    ensures lengths { lengths_of (map R.seen regions.new) ≡ lengths_of (map R.seen regions.old) }
    ensures devices { all_devices (map R.seen regions.new) ≡ all_devices (map R.seen regions.old) }
    ensures cause { HaveCause (map R.faults regions.old) (map R.faults regions.new) result }
{
    set_word(&mut regions[place], power, 0, word)
}

/// Sets the size word of the record with this number, 0 to 255, and persists it.
pub fn set_size<R: Region, P: Power>(
    regions: &mut [R],
    power: &mut P,
    node: usize,
    size: u64,
) -> Result<(), DeviceFault>
    requires node { node < 256 }
    requires place { 67 + node < length regions.old }
    requires within { 0 < length (words_of (seen_at (map R.seen regions.old) (67 + node))) }
    requires distinct { AreDistinct (all_devices (map R.seen regions.old)) }
    ensures ok { OnOk result
        (map R.seen regions.new ≡ with_first (67 + node) size (map R.seen regions.old)) }
    ensures set { SetsWord R.obeys_power 0 size result
        (P.asked power.old) (seen_at (map R.seen regions.old) (67 + node))
        (P.asked power.new) (seen_at (map R.seen regions.new) (67 + node)) }
    ensures others { (k : ℕ) → k ≢ 67 + node →
        slice_get regions.new k ≡ slice_get regions.old k }
    ensures moments { SetsFirst (67 + node) size (P.asked power.old) (map R.seen regions.old)
        (P.asked power.new) (map R.seen regions.new) }
    ensures lengths { lengths_of (map R.seen regions.new) ≡ lengths_of (map R.seen regions.old) }
    ensures devices { all_devices (map R.seen regions.new) ≡ all_devices (map R.seen regions.old) }
    ensures cause { HaveCause (map R.faults regions.old) (map R.faults regions.new) result }
{
    set_first(regions, power, SIZES + node, size)
}

/// Closes the gate of the slot at a place in device order, and persists it.
pub fn close_gate<R: Region, P: Power>(
    regions: &mut [R],
    power: &mut P,
    at: usize,
) -> Result<(), DeviceFault>
    requires place { 323 + at < length regions.old }
    requires within { 0 < length (words_of (seen_at (map R.seen regions.old) (323 + at))) }
    requires distinct { AreDistinct (all_devices (map R.seen regions.old)) }
    ensures ok { OnOk result
        (map R.seen regions.new ≡ with_first (323 + at) 0 (map R.seen regions.old)) }
    ensures set { SetsWord R.obeys_power 0 0 result
        (P.asked power.old) (seen_at (map R.seen regions.old) (323 + at))
        (P.asked power.new) (seen_at (map R.seen regions.new) (323 + at)) }
    ensures others { (k : ℕ) → k ≢ 323 + at →
        slice_get regions.new k ≡ slice_get regions.old k }
    ensures moments { SetsFirst (323 + at) 0 (P.asked power.old) (map R.seen regions.old)
        (P.asked power.new) (map R.seen regions.new) }
    ensures lengths { lengths_of (map R.seen regions.new) ≡ lengths_of (map R.seen regions.old) }
    ensures devices { all_devices (map R.seen regions.new) ≡ all_devices (map R.seen regions.old) }
    ensures cause { HaveCause (map R.faults regions.old) (map R.faults regions.new) result }
{
    set_first(regions, power, SLOTS + at, 0)
}
