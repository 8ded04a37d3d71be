//! All checks of a store's words.
ghost use Rattle.std.specs.Prelude.{All, ◌≡◌, ◌/◌, ◌<◌, ◌^◌, IfErr, IfOk, None, OnOk, length};
ghost use Rattle.cfs_dir.specs.Tree.{IsTree};
ghost use Rattle.cfs_image.specs.Checks.{damage_of};
ghost use Rattle.cfs_image.specs.Layout.{block_at, slot_at};
ghost use Rattle.cfs_journal.specs.Standing.{changes_above};
ghost use Rattle.cfs_survey.specs.Journals.{last_reached};
ghost use Rattle.cfs_survey.specs.Live.{in_order, live_entries};
ghost use Rattle.cfs_survey.specs.Mapped.{IsBlockMap};
ghost use Rattle.cfs_survey.specs.Refusals.{Refuses};
ghost use Rattle.cfs_survey.specs.Slots.{slots_checks};
ghost use Rattle.cfs_survey.specs.SoFar.{found_tree};
ghost use Rattle.cfs_survey.specs.Surveys.{AreWhole, is_mapped, recovered_tree, selected_at};
ghost use Rattle.cfs_survey.specs.Surveys.{survey_checks, through_of, namespace_checks, words_of};
ghost use Rattle.cfs_survey.specs.Tags.{tags_checks};

use crate::journal::read_journal;
use crate::live_entry::LiveEntry;
use crate::recovered::Recovered;
use crate::refusal::SurveyRefusal;
use crate::sizes::check_sizes;
use crate::slots::read_slots;
use crate::store_words::StoreWords;
use crate::table::read_table;
use crate::tags::read_tags;
use cfs_dir::Node;
use cfs_image::{FIRST_SLOT, block_at, region_at};
use indexmap::IndexMap;
use std::alloc::Global;

/// The number of the first table's region.
const FIRST_TABLE: u32 = 1;

/// The number of the first journal record's region.
const FIRST_RECORD: u32 = 3;

/// The number of the first size word's region.
const FIRST_SIZE: u32 = 67;

/// How many slots a queue has.
const QUEUE_SLOTS: usize = 16;

/// What the words of a store tell, where they pass all checks.
#[derive(Drop)]
pub struct Survey {
    /// The tree.
    pub tree: Recovered,
    /// The block of each tag that is one of a file.
    pub blocks: IndexMap<u64, u32>,
    /// The live entries of all files, by inode number and then by gate.
    pub entries: Vec<LiveEntry>,
}

/// Where the table begins that a selector's word selects.
fn selected_at(selector: u64) -> u32
    ensures at { result ≡ selected_at selector }
    ensures low { result < 2 ^ 30 }
{
    let copy = (selector % 2) as u32;
    region_at(FIRST_TABLE + copy) as u32
}

/// The tree that the table and the journal tell.
fn read_tree(alloc: Global, words: &StoreWords) -> Result<Recovered, SurveyRefusal>
    requires whole { AreWhole (words_of words.now) }
    ensures sound { OnOk result (damage_of (namespace_checks (words_of words.now)) ≡ None) }
    ensures tree { IfOk result (λ tree.
        found_tree tree ≡ recovered_tree (words_of words.now)) }
    ensures stands { IfOk result (λ tree. IsTree tree.nodes.items tree.next) }
    ensures records { IfOk result (λ tree. All (λ node. node.rec < 256) tree.nodes.items) }
    ensures inos { IfOk result (λ tree. All (λ node. node.ino < 2 ^ 32) tree.nodes.items) }
    ensures changes { IfOk result (λ tree. tree.changes.items ≡
        changes_above (through_of words.now.selector) words.now.journal.items) }
    ensures last { IfOk result (λ tree. tree.last ≡
        last_reached (through_of words.now.selector) words.now.journal.items) }
    ensures named { IfErr result (Refuses (namespace_checks (words_of words.now))) }
{
    let table_at = selected_at(words.selector);
    let journal_at = region_at(FIRST_RECORD) as u32;
    let nodes = read_table(alloc, u64::from(table_at), &words.table)?;
    let next = words.table[0];
    let through = words.selector / 2;
    read_journal(
        alloc,
        table_at,
        journal_at,
        nodes,
        next,
        through,
        &words.journal,
    )
}

/// The block of each tag that is one of a file among these nodes.
fn read_blocks(
    alloc: Global,
    words: &StoreWords,
    nodes: &[Node],
) -> Result<IndexMap<u64, u32>, SurveyRefusal>
    requires whole { AreWhole (words_of words.now) }
    ensures sound { OnOk result (damage_of (tags_checks
        (block_at (length words.now.slots.items / 16) 0) nodes.now words.now.tags.items) ≡ None) }
    ensures blocks { IfOk result
        (IsBlockMap nodes.now words.now.tags.items (length words.now.tags.items)) }
    ensures named { IfErr result (Refuses (tags_checks
        (block_at (length words.now.slots.items / 16) 0) nodes.now words.now.tags.items)) }
{
    let queues = (words.slots.len() / QUEUE_SLOTS) as u32;
    read_tags(alloc, block_at(queues, 0) as u64, nodes, &words.tags)
}

/// The live entries of the files among these nodes, whose blocks are known.
fn read_entries(
    alloc: Global,
    words: &StoreWords,
    nodes: &[Node],
    blocks: &IndexMap<u64, u32>,
) -> Result<Vec<LiveEntry>, SurveyRefusal>
    requires whole { AreWhole (words_of words.now) }
    requires inos { All (λ node. node.ino < 2 ^ 32) nodes.now }
    requires blocks { IsBlockMap nodes.now words.now.tags.items (length words.now.tags.items)
        blocks.now }
    ensures sound { OnOk result (damage_of (slots_checks (slot_at 0) nodes.now
        (is_mapped words.now.tags.items) words.now.slots.items) ≡ None) }
    ensures live { IfOk result (λ entries.
        entries.items ≡ in_order (live_entries nodes.now words.now.slots.items)) }
    ensures named { IfErr result (Refuses (slots_checks (slot_at 0) nodes.now
        (is_mapped words.now.tags.items) words.now.slots.items)) }
{
    read_slots(
        alloc,
        region_at(FIRST_SLOT) as u64,
        nodes,
        blocks,
        &words.slots,
    )
}

/// Makes all checks of a store's words behind those of its header, and tells what they hold.
///
/// `Damaged` names the first check that fails: of the table, the journal, the sizes, the tags and
/// the slots, with its offset in an image. Takes memory for what it tells; linear in the words.
pub fn survey_words(alloc: Global, words: &StoreWords) -> Result<Survey, SurveyRefusal>
    requires whole { AreWhole (words_of words.now) }
    ensures sound { OnOk result (damage_of (survey_checks (words_of words.now)) ≡ None) }
    ensures tree { IfOk result (λ survey.
        found_tree survey.tree ≡ recovered_tree (words_of words.now)) }
    ensures stands { IfOk result (λ survey. IsTree survey.tree.nodes.items survey.tree.next) }
    ensures changes { IfOk result (λ survey. survey.tree.changes.items ≡
        changes_above (through_of words.now.selector) words.now.journal.items) }
    ensures last { IfOk result (λ survey. survey.tree.last ≡
        last_reached (through_of words.now.selector) words.now.journal.items) }
    ensures blocks { IfOk result (λ survey. IsBlockMap survey.tree.nodes.items
        words.now.tags.items (length words.now.tags.items) survey.blocks) }
    ensures entries { IfOk result (λ survey. survey.entries.items ≡
        in_order (live_entries survey.tree.nodes.items words.now.slots.items)) }
    ensures named { IfErr result (Refuses (survey_checks (words_of words.now))) }
{
    let tree = read_tree(alloc, words)?;
    check_sizes(region_at(FIRST_SIZE) as u64, &words.sizes, &tree.nodes)?;
    let blocks = read_blocks(alloc, words, &tree.nodes)?;
    let entries = read_entries(alloc, words, &tree.nodes, &blocks)?;
    Ok(Survey {
        tree,
        blocks,
        entries,
    })
}
