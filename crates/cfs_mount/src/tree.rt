//! The tree of names on its devices.
ghost use Rattle.std.specs.Prelude.{◌≡◌, ◌∷◌, IfOk, None, map};
ghost use Rattle.cfs_ckpt.specs.Checkpoints.{seens_of, unsure_of, word_of};
ghost use Rattle.cfs_dir.specs.Tree.{IsTree};
ghost use Rattle.cfs_image.specs.Checks.{damage_of};
ghost use Rattle.cfs_journal.specs.Journals.{changes_of, doubt_of, regions_of, through_of};
ghost use Rattle.cfs_journal.specs.Standing.{changes_above};
ghost use Rattle.cfs_mount.specs.Front.{HoldFront};
ghost use Rattle.cfs_names.specs.StoredTrees.{checkpoint_of, journal_of, tree_of};
ghost use Rattle.cfs_survey.specs.SoFar.{found_tree};
ghost use Rattle.cfs_survey.specs.Surveys.{AreWhole, recovered_tree, survey_checks, words_of};
ghost use Rattle.cfs_survey.specs.Surveys as surveys;

use cfs_ckpt::Checkpoint;
use cfs_dir::Tree;
use cfs_file::NoMemory;
use cfs_journal::Journal;
use cfs_names::StoredTree;
use cfs_pmem::Region;
use cfs_survey::{Recovered, StoreWords};
use std::alloc::Global;

/// The tree that a survey found, on the selector, the two copies of its table and the 64 records
/// that hold these words: no change is in doubt. No device is asked for a step.
pub fn mounted_tree<R: Region + Drop>(
    alloc: Global,
    words: &StoreWords,
    found: Recovered,
    selector: R,
    tables: Vec<R>,
    records: Vec<R>,
) -> Result<StoredTree<R>, NoMemory>
    requires whole { AreWhole (words_of words.now) }
    requires sound { damage_of (survey_checks (words_of words.now)) ≡ None }
    requires tree { found_tree found ≡ recovered_tree (words_of words.now) }
    requires stands { IsTree found.nodes.items found.next }
    requires changes { found.changes.items ≡ changes_above
        (surveys.through_of words.now.selector) words.now.journal.items }
    requires front { HoldFront (words_of words.now) (R.seen selector)
        (map R.seen tables.items) (map R.seen records.items) }
    ensures tree { IfOk result (λ stored.
        tree_of stored ≡ recovered_tree (words_of words.now)) }
    ensures changes { IfOk result (λ stored.
        changes_of (journal_of stored) ≡ found.changes.items) }
    ensures through { IfOk result (λ stored.
        through_of (journal_of stored) ≡ surveys.through_of words.now.selector) }
    ensures settled { IfOk result (λ stored. doubt_of (journal_of stored) ≡ None) }
    ensures records { IfOk result (λ stored.
        regions_of (journal_of stored) ≡ records.items) }
    ensures word { IfOk result (λ stored.
        word_of (checkpoint_of stored) ≡ words.now.selector) }
    ensures front { IfOk result (λ stored. seens_of R.seen (checkpoint_of stored) ≡
        R.seen selector ∷ map R.seen tables.items) }
{
    let journal = Journal::new(alloc, records, words.selector / 2, &found.changes)?;
    let tree = Tree::new(alloc, found.nodes, found.next)?;
    let checkpoint = Checkpoint::new(selector, tables, words.selector);
    Ok(StoredTree::new(tree, journal, checkpoint))
}
