//! The words of a store are read and surveyed.
ghost use Rattle.std.specs.Prelude.{◌≡◌, ◌++◌, IfErr, IfOk, None, OnOk, length, map};
ghost use Rattle.cfs_block.specs.Devices.{numbers_of};
ghost use Rattle.cfs_dir.specs.Tree.{IsTree};
ghost use Rattle.cfs_image.specs.Checks.{damage_of};
ghost use Rattle.cfs_image.specs.Store.{IsStore};
ghost use Rattle.cfs_journal.specs.Standing.{changes_above};
ghost use Rattle.cfs_pmem.specs.AllMoments.{AreDistinct};
ghost use Rattle.cfs_survey.specs.Journals.{last_reached};
ghost use Rattle.cfs_survey.specs.Live.{in_order, live_entries};
ghost use Rattle.cfs_survey.specs.Mapped.{IsBlockMap};
ghost use Rattle.cfs_survey.specs.SoFar.{found_tree};
ghost use Rattle.cfs_survey.specs.Surveys.{AreWhole, recovered_tree, survey_checks, through_of};
ghost use Rattle.cfs_survey.specs.Surveys.{words_of};
ghost use Rattle.cfs_store_words.specs.Causes.{TellsCause};
ghost use Rattle.cfs_store_words.specs.Failures.{NamesDamage, SurveyCaused};
ghost use Rattle.cfs_store_words.specs.Held.{words_held};
ghost use Rattle.cfs_store_words.specs.Leaves.{LeavesStore, devices};

use crate::store::read_words;
use crate::survey_failed::SurveyFailed;
use cfs_block::Block;
use cfs_pmem::{Power, Region};
use cfs_survey::{StoreWords, Survey, survey_words};
use std::alloc::Global;

/// Reads the words of a store and makes all checks of them behind those of an image's header, and
/// tells the words and what they hold.
///
/// `Damaged` names the first check that fails, with its offset in an image of the store; a fault of
/// a device, or want of memory, ends the call too. No device is changed.
pub fn survey_store<R: Region, B: Block, P: Power>(
    alloc: Global,
    regions: &mut [R],
    blocks: &mut [B],
    power: &mut P,
) -> Result<(StoreWords, Survey), SurveyFailed>
    requires store { IsStore (map R.seen regions.old) (map B.seen blocks.old)
        (map B.number blocks.old) }
    requires distinct { AreDistinct
        (numbers_of (devices (map R.seen regions.old) (map B.seen blocks.old))) }
    ensures read { IfOk result (λ found.
        words_of found.0 ≡ words_held (map R.seen regions.old) (map B.seen blocks.old)) }
    ensures whole { IfOk result (λ found. AreWhole (words_of found.0)) }
    ensures sound { IfOk result (λ found. damage_of (survey_checks (words_of found.0)) ≡ None) }
    ensures tree { IfOk result (λ found.
        found_tree found.1.tree ≡ recovered_tree (words_of found.0)) }
    ensures stands { IfOk result (λ found.
        IsTree found.1.tree.nodes.items found.1.tree.next) }
    ensures changes { IfOk result (λ found. found.1.tree.changes.items ≡
        changes_above (through_of found.0.selector) found.0.journal.items) }
    ensures last { IfOk result (λ found. found.1.tree.last ≡
        last_reached (through_of found.0.selector) found.0.journal.items) }
    ensures blocks { IfOk result (λ found. IsBlockMap found.1.tree.nodes.items
        found.0.tags.items (length found.0.tags.items) found.1.blocks) }
    ensures entries { IfOk result (λ found. found.1.entries.items ≡
        in_order (live_entries found.1.tree.nodes.items found.0.slots.items)) }
    ensures damaged { IfErr result (NamesDamage
        (survey_checks (words_held (map R.seen regions.old) (map B.seen blocks.old)))) }
    ensures leaves { LeavesStore
        (P.asked power.old) (devices (map R.seen regions.old) (map B.seen blocks.old))
        (P.asked power.new) (devices (map R.seen regions.new) (map B.seen blocks.new)) }
    ensures numbers { map B.number blocks.new ≡ map B.number blocks.old }
    ensures cause { TellsCause SurveyCaused (map R.faults regions.old ++ map B.faults blocks.old)
        (map R.faults regions.new ++ map B.faults blocks.new) result }
{
    let words = read_words(alloc, regions, blocks, power)?;
    let survey = survey_words(alloc, &words)?;
    Ok((words, survey))
}
