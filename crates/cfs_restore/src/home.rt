//! A surveyed store is brought home.
ghost use Rattle.std.specs.Prelude.{◌≡◌, ◌++◌, IfErr, None, OnOk, map};
ghost use Rattle.cfs_block.specs.Devices.{numbers_of};
ghost use Rattle.cfs_home.specs.Calls.{MountMoments};
ghost use Rattle.cfs_home.specs.Disks.{Disk};
ghost use Rattle.cfs_image.specs.Checks.{damage_of};
ghost use Rattle.cfs_image.specs.Store.{IsStore};
ghost use Rattle.cfs_plan.specs.Readings.{IsSurveyOf, files_in};
ghost use Rattle.cfs_pmem.specs.AllMoments.{AreDistinct};
ghost use Rattle.cfs_recover.specs.Begins.{Stands, both};
ghost use Rattle.cfs_recover.specs.Words.{lengths_of};
ghost use Rattle.cfs_replay.specs.Plans.{IsBroughtHome};
ghost use Rattle.cfs_restore.specs.Failures.{LeavesUnlessFailed, NamesDamage, RestoreCaused};
ghost use Rattle.cfs_store_words.specs.Causes.{TellsCause};
ghost use Rattle.cfs_store_words.specs.Held.{words_held};
ghost use Rattle.cfs_survey.specs.Surveys.{AreWhole, survey_checks, words_of};

use crate::restore_failed::RestoreFailed;
use cfs_block::Block;
use cfs_plan::plan_mount;
use cfs_pmem::{Power, Region};
use cfs_replay::replay;
use cfs_survey::{StoreWords, Survey};
use std::alloc::Global;

/// The length of the longest payload, in bytes.
const LONGEST_PAYLOAD: usize = 65_536;

/// Plans what a mount is to do to a store, by its words and their survey, and does it. Takes memory
/// for the plan and one payload before anything is written.
pub(crate) fn bring_home<R: Region, B: Block, P: Power>(
    alloc: Global,
    regions: &mut [R],
    blocks: &mut [B],
    power: &mut P,
    words: &StoreWords,
    survey: &Survey,
) -> Result<(), RestoreFailed>
    requires store { IsStore (map R.seen regions.old) (map B.seen blocks.old)
        (map B.number blocks.old) }
    requires distinct { AreDistinct
        (numbers_of (both (map R.seen regions.old) (map B.seen blocks.old))) }
    requires read { words_of words.now ≡
        words_held (map R.seen regions.old) (map B.seen blocks.old) }
    requires whole { AreWhole (words_of words.now) }
    requires sound { damage_of (survey_checks (words_of words.now)) ≡ None }
    requires told { IsSurveyOf (words_of words.now) survey.now }
    ensures moments { (start first : Disk) →
        Stands (files_in survey.now) start first (map R.seen regions.old)
        (map B.seen blocks.old) → MountMoments (files_in survey.now) start
        (P.asked power.old) (both (map R.seen regions.old) (map B.seen blocks.old))
        (P.asked power.new) (both (map R.seen regions.new) (map B.seen blocks.new)) }
    ensures home { OnOk result ((start first : Disk) →
        Stands (files_in survey.now) start first (map R.seen regions.old)
        (map B.seen blocks.old) → IsBroughtHome (files_in survey.now) start first
        (map R.seen regions.new) (map B.seen blocks.new)) }
    ensures damaged { IfErr result (NamesDamage
        (survey_checks (words_held (map R.seen regions.old) (map B.seen blocks.old)))) }
    ensures leaves { IfErr result (LeavesUnlessFailed
        (both (map R.seen regions.old) (map B.seen blocks.old))
        (both (map R.seen regions.new) (map B.seen blocks.new))) }
    ensures lengths { lengths_of (map R.seen regions.new) ≡ lengths_of (map R.seen regions.old) }
    ensures devices { numbers_of (both (map R.seen regions.new) (map B.seen blocks.new))
        ≡ numbers_of (both (map R.seen regions.old) (map B.seen blocks.old)) }
    ensures numbers { map B.number blocks.new ≡ map B.number blocks.old }
    ensures cause { TellsCause RestoreCaused (map R.faults regions.old ++ map B.faults blocks.old)
        (map R.faults regions.new ++ map B.faults blocks.new) result }
{
    let plan = plan_mount(alloc, words, survey)?;
    let mut buffer = vec![in alloc; 0; LONGEST_PAYLOAD]?;
    replay(regions, blocks, power, &survey.blocks, &plan, &mut buffer)?;
    Ok(())
}
