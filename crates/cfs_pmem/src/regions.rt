//! A call on one of a list of regions.
ghost use Rattle.std.specs.Prelude.{◌≡◌, ◌≢◌, ◌<◌, ℕ, length, map, slice_get};
ghost use Rattle.std.proofs.Math.ListN.{get_or, set};
ghost use Rattle.cfs_pmem.specs.AllMoments.{AreDistinct};
ghost use Rattle.cfs_pmem.specs.Faults.{HasCause};
ghost use Rattle.cfs_pmem.specs.Images.{words_of, IsImage, IsSetFrom};
ghost use Rattle.cfs_pmem.specs.Objects.{seen_at, all_devices, IsImageBut, MomentsOf};
ghost use Rattle.cfs_pmem.specs.WordOps.{SetsWord};

use crate::fault::DeviceFault;
use crate::power::Power;
use crate::region::{Region, set_word};

/// Sets a word of the region at `place` and persists it. At each moment each other region has an
/// image from before the call.
pub fn set_word_of<R: Region, P: Power>(
    regions: &mut [R],
    power: &mut P,
    place: usize,
    at: u32,
    word: u64,
) -> Result<(), DeviceFault>
    requires place { place < length regions.old }
    requires within { at < length (words_of (seen_at (map R.seen regions.old) place)) }
    requires distinct { AreDistinct (all_devices (map R.seen regions.old)) }
    ensures set { SetsWord R.obeys_power at word result
        (P.asked power.old) (seen_at (map R.seen regions.old) place)
        (P.asked power.new) (seen_at (map R.seen regions.new) place) }
    ensures others { (k : ℕ) → k ≢ place → slice_get regions.new k ≡ slice_get regions.old k }
    ensures cause { HasCause (get_or (map R.faults regions.old) place 0)
        (get_or (map R.faults regions.new) place 0) result }
    ensures seen { map R.seen regions.new ≡
        set (map R.seen regions.old) place (seen_at (map R.seen regions.new) place) }
    ensures moments { let old = map R.seen regions.old in
        MomentsOf IsImage (IsImageBut IsImage (IsSetFrom (seen_at old place) at word) place old)
        (P.asked power.old) old (P.asked power.new) (map R.seen regions.new) }
{
    set_word(&mut regions[place], power, at, word)
}
