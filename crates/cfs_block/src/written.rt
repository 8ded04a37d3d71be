//! Bits, sixty-four to a word, that note which bytes of a block were written.
ghost use Rattle.std.specs.Prelude.{◌≡◌, ◌-◌, ◌*◌, ◌^◌, ◌<◌, ◌≤◌, ◌&&◌, ◌||◌, ℕ, false, length, nat_le, nat_lt};
ghost use Rattle.cfs_block.specs.Written.{is_set, IsSetWithin};

use cfs_pmem::Dirty;

/// A word with its lowest `k` bits set.
#[inline]
fn ones(k: usize) -> u64
    requires { k ≤ 64 }
    ensures { result ≡ 2 ^ k - 1 }
{
    if k < 64 { (1 << k) - 1 } else { u64::MAX }
}

/// A word with the bits from `low` up to `high` set.
#[inline]
fn run_of_ones(low: usize, high: usize) -> u64
    requires order { low ≤ high }
    requires fits { high ≤ 64 }
    ensures { result ≡ 2 ^ high - 2 ^ low }
{
    ones(high) - ones(low)
}

/// Sets the bits from `from` up to `to`.
pub fn set_range(written: &mut Vec<u64>, from: usize, to: usize)
    requires order { from ≤ to }
    requires fits { to ≤ 64 * length written.old.items }
    ensures bits { (k : ℕ) → is_set written.new.items k ≡
        ((nat_le from k && nat_lt k to) || is_set written.old.items k) }
    ensures size { length written.new.items ≡ length written.old.items }
{
    for i in from / 64..to.div_ceil(64) {
        let start = 64 * i;
        let low = from.saturating_sub(start);
        let high = (to - start).min(64);
        written[i] |= run_of_ones(low, high);
    }
}

/// Whether bit `k` is set.
#[inline]
pub fn is_set(written: &Vec<u64>, k: usize) -> bool
    requires { k < 64 * length written.now.items }
    ensures { result ≡ is_set written.now.items k }
{
    written[k / 64] >> (k % 64) & 1 == 1
}

/// Clears every bit, where none is set outside of this range. Touches the words of the range alone.
pub fn clear(written: &mut Vec<u64>, dirty: Dirty)
    requires within { IsSetWithin dirty.from dirty.to written.old.items }
    requires fits { dirty.to ≤ 64 * length written.old.items }
    ensures bits { (k : ℕ) → is_set written.new.items k ≡ false }
    ensures size { length written.new.items ≡ length written.old.items }
{
    for i in dirty.from as usize / 64..(dirty.to as usize).div_ceil(64) {
        written[i] = 0;
    }
}
