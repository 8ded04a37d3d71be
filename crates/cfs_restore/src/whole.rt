//! A mount's whole work on the devices of a store.
ghost use Rattle.std.specs.Prelude.{◌≡◌, ◌++◌, IfErr, IfOk, None, OnOk, length, map};
ghost use Rattle.cfs_block.specs.Devices.{numbers_of};
ghost use Rattle.cfs_home.specs.Calls.{MountMoments};
ghost use Rattle.cfs_home.specs.Disks.{Disk};
ghost use Rattle.cfs_image.specs.Checks.{damage_of};
ghost use Rattle.cfs_image.specs.Store.{IsStore};
ghost use Rattle.cfs_plan.specs.Readings.{IsSurveyOf};
ghost use Rattle.cfs_pmem.specs.AllMoments.{AreDistinct};
ghost use Rattle.cfs_recover.specs.Begins.{Stands, both};
ghost use Rattle.cfs_recover.specs.Words.{lengths_of};
ghost use Rattle.cfs_replay.specs.Plans.{IsBroughtHome};
ghost use Rattle.cfs_restore.specs.Failures.{LeavesUnlessFailed, NamesDamage, RestoreCaused};
ghost use Rattle.cfs_restore.specs.Held.{files_held};
ghost use Rattle.cfs_store_words.specs.Causes.{TellsCause};
ghost use Rattle.cfs_store_words.specs.Held.{words_held};
ghost use Rattle.cfs_survey.specs.Surveys.{AreWhole, survey_checks, words_of};

use crate::home::bring_home;
use crate::restore_failed::RestoreFailed;
use crate::restored::Restored;
use cfs_block::Block;
use cfs_pmem::{Power, Region};
use cfs_store_words::survey_store;
use std::alloc::Global;

/// Reads a store from its devices, surveys what was read and brings the store home: all that a
/// mount does to devices. Tells the words and what they told, and how many live entries were
/// brought home.
///
/// A crash at any moment leaves what another mount finds the same files on, also where this call
/// fails. `Damaged` names the first check that fails, with its offset in an image of the store; it
/// and want of memory end the call before anything is written. A device that fails ends it at once.
/// Behind `Ok` each file is stored as it was to be found, no gate is open, and what is no file's
/// has neither a size nor a block.
pub fn restore<R: Region, B: Block, P: Power>(
    alloc: Global,
    regions: &mut [R],
    blocks: &mut [B],
    power: &mut P,
) -> Result<Restored, RestoreFailed>
    requires store { IsStore (map R.seen regions.old) (map B.seen blocks.old)
        (map B.number blocks.old) }
    requires distinct { AreDistinct
        (numbers_of (both (map R.seen regions.old) (map B.seen blocks.old))) }
    ensures read { IfOk result (λ restored. words_of restored.words ≡
        words_held (map R.seen regions.old) (map B.seen blocks.old)) }
    ensures whole { IfOk result (λ restored. AreWhole (words_of restored.words)) }
    ensures sound { IfOk result (λ restored.
        damage_of (survey_checks (words_of restored.words)) ≡ None) }
    ensures told { IfOk result (λ restored.
        IsSurveyOf (words_of restored.words) restored.survey) }
    ensures replayed { IfOk result (λ restored.
        restored.replayed ≡ length restored.survey.entries.items) }
    ensures moments { (start first : Disk) →
        Stands (files_held (map R.seen regions.old) (map B.seen blocks.old)) start first
        (map R.seen regions.old) (map B.seen blocks.old) →
        MountMoments (files_held (map R.seen regions.old) (map B.seen blocks.old)) start
        (P.asked power.old) (both (map R.seen regions.old) (map B.seen blocks.old))
        (P.asked power.new) (both (map R.seen regions.new) (map B.seen blocks.new)) }
    ensures home { OnOk result ((start first : Disk) →
        Stands (files_held (map R.seen regions.old) (map B.seen blocks.old)) start first
        (map R.seen regions.old) (map B.seen blocks.old) →
        IsBroughtHome (files_held (map R.seen regions.old) (map B.seen blocks.old)) start first
        (map R.seen regions.new) (map B.seen blocks.new)) }
    ensures damaged { IfErr result (NamesDamage
        (survey_checks (words_held (map R.seen regions.old) (map B.seen blocks.old)))) }
    ensures leaves { IfErr result (LeavesUnlessFailed
        (both (map R.seen regions.old) (map B.seen blocks.old))
        (both (map R.seen regions.new) (map B.seen blocks.new))) }
    ensures store { IsStore (map R.seen regions.new) (map B.seen blocks.new)
        (map B.number blocks.new) }
    ensures lengths { lengths_of (map R.seen regions.new) ≡ lengths_of (map R.seen regions.old) }
    ensures devices { numbers_of (both (map R.seen regions.new) (map B.seen blocks.new))
        ≡ numbers_of (both (map R.seen regions.old) (map B.seen blocks.old)) }
    ensures numbers { map B.number blocks.new ≡ map B.number blocks.old }
    ensures cause { TellsCause RestoreCaused (map R.faults regions.old ++ map B.faults blocks.old)
        (map R.faults regions.new ++ map B.faults blocks.new) result }
{
    let (words, survey) = survey_store(alloc, regions, blocks, power)?;
    bring_home(alloc, regions, blocks, power, &words, &survey)?;
    let replayed = survey.entries.len();
    Ok(Restored {
        words,
        survey,
        replayed,
    })
}
