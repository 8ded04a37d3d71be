//! One record of the journal.
ghost use Rattle.std.specs.Prelude.{◌≡◌, length, IsTrue, OnOk};
ghost use Rattle.cfs_pmem.specs.Faults.{HasCause};
ghost use Rattle.cfs_pmem.specs.Images.{words_of, IsImage, IsSure};
ghost use Rattle.cfs_pmem.specs.Moments.{Moments};
ghost use Rattle.cfs_pmem.specs.WordOps.{DoesWords};
ghost use Rattle.cfs_journal.specs.Records.{WritesRecord};

use cfs_dir::Change;
use cfs_pmem::{DeviceFault, Power, Region, set_word, write_words};

/// How many words a record has.
pub const RECORD_WORDS: u32 = 16;

/// The gate: the record's number, or another one where the record is not there.
pub const GATE: u32 = 0;

/// Writes a change behind the gate and persists it, and then opens the gate with the record's
/// number: eighteen writing steps, or as many as there are up to the one that fails.
pub(crate) fn write_record<R: Region, P: Power>(
    region: &mut R,
    power: &mut P,
    number: u64,
    change: &Change,
) -> Result<(), DeviceFault>
    requires { length (words_of (R.seen region.old)) ≡ 16 }
    ensures written { WritesRecord R.obeys_power number change.now result
        (P.asked power.old) (R.seen region.old) (P.asked power.new) (R.seen region.new) }
    ensures cause { HasCause (R.faults region.old) (R.faults region.new) result }
{
    write_words(region, power, GATE + 1, &change.words())?;
    region.persist(power)?;
    set_word(region, power, GATE, number)?;
    Ok(())
}
