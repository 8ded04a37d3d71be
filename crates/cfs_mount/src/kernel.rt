//! The kernel's part of a store, made of all its regions.
ghost use Rattle.std.specs.Prelude.{◌≡◌, ◌≤◌, IfOk, None, length, map, take};
ghost use Rattle.cfs_ckpt.specs.Checkpoints.{word_of};
ghost use Rattle.cfs_dir.specs.Tree.{IsTree};
ghost use Rattle.cfs_image.specs.Checks.{damage_of};
ghost use Rattle.cfs_image.specs.Layout.{queues_of, region_count};
ghost use Rattle.cfs_journal.specs.Journals.{changes_of, through_of};
ghost use Rattle.cfs_journal.specs.Standing.{changes_above};
ghost use Rattle.cfs_kernel.specs.States.{kernel_of, stored_of};
ghost use Rattle.cfs_mount.specs.Names.{mounted_kernel};
ghost use Rattle.cfs_mount.specs.Settled.{AreSettled, sizes_among, slots_among};
ghost use Rattle.cfs_names.specs.StoredTrees.{checkpoint_of, doubt_in, journal_of, seens_in};
ghost use Rattle.cfs_survey.specs.SoFar.{found_tree};
ghost use Rattle.cfs_survey.specs.Surveys.{AreWhole, recovered_tree, survey_checks, words_of};
ghost use Rattle.cfs_survey.specs.Surveys as surveys;

use crate::names::mounted_names;
use crate::regions::split_regions;
use crate::tree::mounted_tree;
use cfs_file::NoMemory;
use cfs_kernel::NsState;
use cfs_pmem::MemRegion;
use cfs_slot::QUEUE_SLOTS;
use cfs_survey::{Recovered, StoreWords};
use std::alloc::Global;

/// The kernel's part of a mounted store, and what is no part of it.
#[derive(Drop)]
pub struct MountedRegions {
    /// The names, with the queues.
    pub names: NsState<MemRegion>,
    /// The size words of the 256 records of the tree.
    pub sizes: Vec<MemRegion>,
}

/// All regions of a store, in the order of device numbers, as a mount leaves them: they become the
/// stored tree that a survey of these words found, the queues, whose slots are all free, and the
/// size words. No device is asked for a step. Without memory the regions are let go.
pub fn mount_regions(
    alloc: Global,
    words: &StoreWords,
    found: Recovered,
    regions: Vec<MemRegion>,
) -> Result<MountedRegions, NoMemory>
    requires whole { AreWhole (words_of words.now) }
    requires sound { damage_of (survey_checks (words_of words.now)) ≡ None }
    requires tree { found_tree found ≡ recovered_tree (words_of words.now) }
    requires stands { IsTree found.nodes.items found.next }
    requires changes { found.changes.items ≡ changes_above
        (surveys.through_of words.now.selector) words.now.journal.items }
    requires queues { length regions.items ≡ region_count (queues_of (length regions.items)) }
    requires most { queues_of (length regions.items) ≤ 64 }
    requires settled { AreSettled (words_of words.now)
        (map (λ region. region.seen) regions.items) }
    ensures kernel { IfOk result (λ mounted. kernel_of mounted.names ≡
        mounted_kernel (recovered_tree (words_of words.now)) (slots_among regions.items)
        (queues_of (length regions.items))) }
    ensures changes { IfOk result (λ mounted.
        changes_of (journal_of (stored_of mounted.names)) ≡ found.changes.items) }
    ensures through { IfOk result (λ mounted.
        through_of (journal_of (stored_of mounted.names))
        ≡ surveys.through_of words.now.selector) }
    ensures doubt { IfOk result (λ mounted. doubt_in (stored_of mounted.names) ≡ None) }
    ensures word { IfOk result (λ mounted.
        word_of (checkpoint_of (stored_of mounted.names)) ≡ words.now.selector) }
    ensures front { IfOk result (λ mounted.
        seens_in (λ region. region.seen) (stored_of mounted.names)
        ≡ take 67 (map (λ region. region.seen) regions.items)) }
    ensures sizes { IfOk result (λ mounted. mounted.sizes.items ≡ sizes_among regions.items) }
{
    let split = split_regions(regions)?;
    let stored = mounted_tree(
        alloc,
        words,
        found,
        split.selector,
        split.tables,
        split.records,
    )?;
    let queues = (split.slots.len() / QUEUE_SLOTS) as u32;
    let names = mounted_names(alloc, stored, split.slots, queues)?;
    Ok(MountedRegions {
        names,
        sizes: split.sizes,
    })
}
