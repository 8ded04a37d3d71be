//! The words of a store are read.
ghost use Rattle.std.specs.Prelude.{◌≡◌, ◌++◌, IfOk, map};
ghost use Rattle.cfs_block.specs.Devices.{numbers_of};
ghost use Rattle.cfs_image.specs.Store.{IsStore};
ghost use Rattle.cfs_pmem.specs.AllMoments.{AreDistinct};
ghost use Rattle.cfs_survey.specs.Surveys.{AreWhole, words_of};
ghost use Rattle.cfs_store_words.specs.Causes.{ReadCaused, TellsCause};
ghost use Rattle.cfs_store_words.specs.Held.{words_held};
ghost use Rattle.cfs_store_words.specs.Leaves.{LeavesStore, devices};

use crate::blocks::read_tags;
use crate::read_failed::ReadFailed;
use crate::regions::{read_fronts, read_sizes, read_table, read_word};
use cfs_block::Block;
use cfs_image::FIRST_SLOT;
use cfs_pmem::{Power, Region};
use cfs_survey::StoreWords;
use std::alloc::Global;

/// The number of the selector's region.
const SELECTOR: usize = 0;

/// The number of the first journal record's region.
const FIRST_RECORD: usize = 3;

/// How many records the journal has.
const RECORDS: usize = 64;

/// The number of the first slot's region.
const SLOTS: usize = FIRST_SLOT as usize;

/// Reads the words of a store that a survey looks at, each once, by a step of its device. Takes
/// memory for them. A fault of a device, or want of memory, ends the call; no device is changed.
pub fn read_words<R: Region, B: Block, P: Power>(
    alloc: Global,
    regions: &mut [R],
    blocks: &mut [B],
    power: &mut P,
) -> Result<StoreWords, ReadFailed>
    requires store { IsStore (map R.seen regions.old) (map B.seen blocks.old)
        (map B.number blocks.old) }
    requires distinct { AreDistinct
        (numbers_of (devices (map R.seen regions.old) (map B.seen blocks.old))) }
    ensures read { IfOk result (λ words.
        words_of words ≡ words_held (map R.seen regions.old) (map B.seen blocks.old)) }
    ensures whole { IfOk result (λ words. AreWhole (words_of words)) }
    ensures leaves { LeavesStore
        (P.asked power.old) (devices (map R.seen regions.old) (map B.seen blocks.old))
        (P.asked power.new) (devices (map R.seen regions.new) (map B.seen blocks.new)) }
    ensures numbers { map B.number blocks.new ≡ map B.number blocks.old }
    ensures cause { TellsCause ReadCaused (map R.faults regions.old ++ map B.faults blocks.old)
        (map R.faults regions.new ++ map B.faults blocks.new) result }
{
    let selector = read_word(regions, power, SELECTOR, 0)?;
    let table = read_table(alloc, regions, power, selector)?;
    let journal = read_fronts(alloc, regions, power, FIRST_RECORD, RECORDS)?;
    let sizes = read_sizes(alloc, regions, power)?;
    let slots = read_fronts(alloc, regions, power, SLOTS, regions.len() - SLOTS)?;
    let tags = read_tags(alloc, blocks, power)?;
    Ok(StoreWords {
        selector,
        table,
        journal,
        sizes,
        slots,
        tags,
    })
}
