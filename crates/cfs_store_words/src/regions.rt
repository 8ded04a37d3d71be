//! Words of regions are read, each by a step of its device.
ghost use Rattle.std.specs.Prelude.{ℕ, ◌≡◌, ◌+◌, ◌<◌, ◌≤◌, ◌^◌, ◌%◌, IfOk, OnOk, drop, get_or};
ghost use Rattle.std.specs.Prelude.{length, map, take};
ghost use Rattle.cfs_pmem.specs.AllMoments.{AreDistinct};
ghost use Rattle.cfs_pmem.specs.Images.{IsImage, words_of};
ghost use Rattle.cfs_pmem.specs.Objects.{all_devices};
ghost use Rattle.cfs_slot.specs.Payload.{HaveCause};
ghost use Rattle.cfs_store_words.specs.Causes.{ReadCaused, TellsCause};
ghost use Rattle.cfs_store_words.specs.Leaves.{LeavesEach};
ghost use Rattle.cfs_store_words.specs.Rows.{first_word, row_at, rows_from};

use crate::read_failed::ReadFailed;
use cfs_pmem::{DeviceFault, Power, Region};
use std::alloc::Global;

/// The number of the first table's region.
const FIRST_TABLE: usize = 1;

/// How many words a table has.
const TABLE_WORDS: usize = 3073;

/// The number of the first size word's region.
const FIRST_SIZE: usize = 67;

/// How many size words a store has.
const SIZES: usize = 256;

/// Reads a word of the region at a place.
pub(crate) fn read_word<R: Region, P: Power>(
    regions: &mut [R],
    power: &mut P,
    place: usize,
    at: u32,
) -> Result<u64, DeviceFault>
    requires place { place < length regions.old }
    requires within { at < length (row_at (map R.seen regions.old) place) }
    requires distinct { AreDistinct (all_devices (map R.seen regions.old)) }
    ensures word { IfOk result
        (λ word. word ≡ get_or (row_at (map R.seen regions.old) place) at 0) }
    ensures leaves { LeavesEach IsImage (P.asked power.old) (map R.seen regions.old)
        (P.asked power.new) (map R.seen regions.new) }
    ensures cause { HaveCause (map R.faults regions.old) (map R.faults regions.new) result }
{
    regions[place].read(power, at)
}

/// Reads the first words of the region at a place, as many as `words` has room for.
fn read_front<R: Region, P: Power>(
    regions: &mut [R],
    power: &mut P,
    place: usize,
    words: &mut [u64],
) -> Result<(), DeviceFault>
    requires place { place < length regions.old }
    requires within { length words.old ≤ length (row_at (map R.seen regions.old) place) }
    requires fits { length words.old < 2 ^ 32 }
    requires distinct { AreDistinct (all_devices (map R.seen regions.old)) }
    ensures words { OnOk result
        (words.new ≡ take (length words.old) (row_at (map R.seen regions.old) place)) }
    ensures leaves { LeavesEach IsImage (P.asked power.old) (map R.seen regions.old)
        (P.asked power.new) (map R.seen regions.new) }
    ensures cause { HaveCause (map R.faults regions.old) (map R.faults regions.new) result }
{
    for at in 0..words.len() {
        words[at] = read_word(regions, power, place, at as u32)?;
    }
    Ok(())
}

/// Reads the first `N` words of each of so many regions from a place on.
pub(crate) fn read_fronts<R: Region, P: Power, const N: usize>(
    alloc: Global,
    regions: &mut [R],
    power: &mut P,
    first: usize,
    count: usize,
) -> Result<Vec<[u64; N]>, ReadFailed>
    requires places { first + count ≤ length regions.old }
    requires within { (k : ℕ) → k < count →
        N ≤ length (row_at (map R.seen regions.old) (first + k)) }
    requires fits { N < 2 ^ 32 }
    requires distinct { AreDistinct (all_devices (map R.seen regions.old)) }
    ensures rows { IfOk result
        (λ rows. rows.items ≡ map (take N) (rows_from first count (map R.seen regions.old))) }
    ensures leaves { LeavesEach IsImage (P.asked power.old) (map R.seen regions.old)
        (P.asked power.new) (map R.seen regions.new) }
    ensures cause { TellsCause ReadCaused (map R.faults regions.old) (map R.faults regions.new)
        result }
{
    let mut rows = Vec::with_capacity(alloc, count)?;
    for k in 0..count {
        let mut words = [0; N];
        read_front(regions, power, first + k, &mut words)?;
        rows.push(words)?;
    }
    Ok(rows)
}

/// Reads the table that a selector's word selects.
pub(crate) fn read_table<R: Region, P: Power>(
    alloc: Global,
    regions: &mut [R],
    power: &mut P,
    selector: u64,
) -> Result<Vec<u64>, ReadFailed>
    requires places { 3 ≤ length regions.old }
    requires within { length (row_at (map R.seen regions.old) (1 + selector % 2)) ≡ 3073 }
    requires distinct { AreDistinct (all_devices (map R.seen regions.old)) }
    ensures table { IfOk result
        (λ table. table.items ≡ row_at (map R.seen regions.old) (1 + selector % 2)) }
    ensures leaves { LeavesEach IsImage (P.asked power.old) (map R.seen regions.old)
        (P.asked power.new) (map R.seen regions.new) }
    ensures cause { TellsCause ReadCaused (map R.faults regions.old) (map R.faults regions.new)
        result }
{
    let mut table = vec![in alloc; 0; TABLE_WORDS]?;
    let place = FIRST_TABLE + (selector % 2) as usize;
    read_front(regions, power, place, &mut table)?;
    Ok(table)
}

/// Reads the size word of each record.
pub(crate) fn read_sizes<R: Region, P: Power>(
    alloc: Global,
    regions: &mut [R],
    power: &mut P,
) -> Result<Vec<u64>, ReadFailed>
    requires places { 323 ≤ length regions.old }
    requires within { (k : ℕ) → k < 256 →
        1 ≤ length (row_at (map R.seen regions.old) (67 + k)) }
    requires distinct { AreDistinct (all_devices (map R.seen regions.old)) }
    ensures sizes { IfOk result
        (λ sizes. sizes.items ≡ map first_word (rows_from 67 256 (map R.seen regions.old))) }
    ensures leaves { LeavesEach IsImage (P.asked power.old) (map R.seen regions.old)
        (P.asked power.new) (map R.seen regions.new) }
    ensures cause { TellsCause ReadCaused (map R.faults regions.old) (map R.faults regions.new)
        result }
{
    let mut sizes = Vec::with_capacity(alloc, SIZES)?;
    for k in 0..SIZES {
        let size = read_word(regions, power, FIRST_SIZE + k, 0)?;
        sizes.push(size)?;
    }
    Ok(sizes)
}
