//! What a mount is to do.
ghost use Rattle.std.specs.Prelude.{All, IfOk, None, ◌≡◌, ◌<◌, length};
ghost use Rattle.cfs_home.specs.Disks.{AreFiles, AreReady};
ghost use Rattle.cfs_image.specs.Checks.{damage_of};
ghost use Rattle.cfs_plan.specs.Lists.{dead_slots, leftover_records, stray_blocks};
ghost use Rattle.cfs_plan.specs.Pendings.{pendings};
ghost use Rattle.cfs_plan.specs.Mounts.{OnDevicesOf};
ghost use Rattle.cfs_plan.specs.Readings.{HasNothingPast, IsSurveyOf, files_in};
ghost use Rattle.cfs_replay.specs.Entries.{CanReplay};
ghost use Rattle.cfs_replay.specs.Pieces.{tags_in};
ghost use Rattle.cfs_replay.specs.Plans.{IsPlanFor, IsWithin, disk_in};
ghost use Rattle.cfs_survey.specs.Surveys.{AreWhole, survey_checks, words_of};

use crate::dead::dead_slots;
use crate::emptied::leftover_records;
use crate::pendings::pendings_of;
use crate::records::records_of;
use crate::untagged::stray_blocks;
use cfs_file::NoMemory;
use cfs_replay::Plan;
use cfs_survey::{StoreWords, Survey};
use std::alloc::Global;

/// The lists of a plan, by the words of a store and a survey whose nodes have records below the
/// number of size words.
fn plan_lists(alloc: Global, words: &StoreWords, survey: &Survey) -> Result<Plan, NoMemory>
    requires { All (λ node. node.rec < length words.now.sizes.items) survey.now.tree.nodes.items }
    ensures dead { IfOk result (λ plan. plan.dead.items ≡
        dead_slots (files_in survey.now) words.now.slots.items) }
    ensures entries { IfOk result (λ plan. plan.entries.items ≡
        pendings (files_in survey.now) survey.now.entries.items) }
    ensures untagged { IfOk result (λ plan. plan.untagged.items ≡
        stray_blocks (files_in survey.now) words.now.tags.items) }
    ensures emptied { IfOk result (λ plan. plan.emptied.items ≡
        leftover_records (files_in survey.now) words.now.sizes.items) }
{
    let records = records_of(alloc, &survey.tree.nodes)?;
    let dead = dead_slots(alloc, &records, &words.slots)?;
    let entries = pendings_of(alloc, &records, &survey.entries)?;
    let untagged = stray_blocks(alloc, &records, &words.tags)?;
    let emptied = leftover_records(alloc, &survey.tree.nodes, &words.sizes)?;
    Ok(Plan {
        dead,
        entries,
        untagged,
        emptied,
    })
}

/// What a mount of a store is to do, by the store's words and what their survey told of them.
///
/// `replay` of cfs_replay carries it out on the devices that read these words. Takes memory for the
/// lists of the plan and a map of the files, and fails for want of it alone. Linear in the words
/// and the files, but for look-ups in that map: one for each open slot, each tag and each entry.
pub fn plan_mount(alloc: Global, words: &StoreWords, survey: &Survey) -> Result<Plan, NoMemory>
    requires whole { AreWhole (words_of words.now) }
    requires sound { damage_of (survey_checks (words_of words.now)) ≡ None }
    requires told { IsSurveyOf (words_of words.now) survey.now }
    ensures dead { IfOk result (λ plan. plan.dead.items ≡
        dead_slots (files_in survey.now) words.now.slots.items) }
    ensures entries { IfOk result (λ plan. plan.entries.items ≡
        pendings (files_in survey.now) survey.now.entries.items) }
    ensures untagged { IfOk result (λ plan. plan.untagged.items ≡
        stray_blocks (files_in survey.now) words.now.tags.items) }
    ensures emptied { IfOk result (λ plan. plan.emptied.items ≡
        leftover_records (files_in survey.now) words.now.sizes.items) }
    ensures files { AreFiles (files_in survey.now) }
    ensures within { IfOk result (λ plan. OnDevicesOf (words_of words.now) (λ regions blocks.
        IsWithin plan (length regions) (length blocks))) }
    ensures plan { IfOk result (λ plan. OnDevicesOf (words_of words.now) (λ regions blocks.
        IsPlanFor (files_in survey.now) (disk_in regions blocks) plan)) }
    ensures can { IfOk result (λ plan. OnDevicesOf (words_of words.now) (λ regions blocks.
        All (CanReplay survey.now.blocks (tags_in blocks) regions) plan.entries.items)) }
    ensures ready { OnDevicesOf (words_of words.now) (λ regions blocks.
        HasNothingPast (files_in survey.now) (disk_in regions blocks) →
        AreReady (files_in survey.now) (disk_in regions blocks)) }
{
    plan_lists(alloc, words, survey)
}
