//! The words of a small store of two queues and sixteen blocks, and what a survey of it answers.
use crate::tests::tables::{refusal_text, table};
use cfs_survey::{HEAD_WORDS, LiveEntry, RECORD_WORDS, StoreWords, Survey, survey_words};
use std::alloc::Global;
use std::test::Fail;

/// The selector of the second table, which holds the tree through the change 62.
const SELECTOR: u64 = 125;

/// The words of that store, whose journal, slots and blocks are blank.
pub(crate) fn blank_store(alloc: Global) -> Result<StoreWords, Fail> {
    Ok(StoreWords {
        selector: SELECTOR,
        table: table(alloc)?,
        journal: vec![in alloc; [0; RECORD_WORDS]; 64]?,
        sizes: vec![in alloc; 0; 256]?,
        slots: vec![in alloc; [0; HEAD_WORDS]; 32]?,
        tags: vec![in alloc; 0; 16]?,
    })
}

/// Sets a word of a list.
fn set_word(words: &mut [u64], index: usize, word: u64) {
    if index < words.len() {
        words[index] = word;
    }
}

/// Sets a word of a list of records.
fn set_record<const WORDS: usize>(records: &mut [[u64; WORDS]], index: usize, word: u64) {
    if WORDS > 0 && index / WORDS < records.len() {
        records[index / WORDS][index % WORDS] = word;
    }
}

/// Sets a word of a part of a store, which is named by a letter.
pub(crate) fn set_part(store: &mut StoreWords, part: &str, index: usize, word: u64) {
    match part {
        "table" => set_word(&mut store.table, index, word),
        "journal" => set_record(&mut store.journal, index, word),
        "size" => set_word(&mut store.sizes, index, word),
        "tag" => set_word(&mut store.tags, index, word),
        "slot" => set_record(&mut store.slots, index, word),
        _ => store.selector = word,
    }
}

/// Changes words of a store, each given as a part, an index in it and a word: `size:3=8192`.
pub(crate) fn change(store: &mut StoreWords, changes: &str) -> Result<(), Fail> {
    for change in changes.split(' ') {
        let (place, word) = change.split_once('=').ok_or("change")?;
        let (part, index) = place.split_once(':').ok_or("part")?;
        set_part(store, part, index.parse::<usize>()?, word.parse::<u64>()?);
    }
    Ok(())
}

/// Adds live entries to a text: of each its inode number, its gate and its slot.
fn push_entries(alloc: Global, text: &mut String, entries: &[LiveEntry]) -> Result<(), Fail> {
    for entry in entries {
        let told = format!(in alloc; " {}:{}@{}", entry.ino, entry.gate, entry.slot)?;
        text.push_str(told.as_str())?;
    }
    Ok(())
}

/// A survey as text: the numbers of nodes and of blocks, the last change, and the live entries.
fn survey_text(alloc: Global, survey: &Survey) -> Result<String, Fail> {
    let nodes = survey.tree.nodes.len();
    let blocks = survey.blocks.len();
    let mut text = format!(in alloc; "{nodes} nodes {blocks} blocks {}", survey.tree.last)?;
    push_entries(alloc, &mut text, &survey.entries)?;
    Ok(text)
}

/// What a survey of these words answers, as text.
pub(crate) fn answer(alloc: Global, store: &StoreWords) -> Result<String, Fail> {
    if store.table.len() != 3073
        || store.journal.len() != 64
        || store.sizes.len() != 256
        || store.slots.len() > 1024
        || store.tags.len() > 16_384
    {
        return Ok(format!(in alloc; "no store")?);
    }
    match survey_words(alloc, store) {
        Ok(survey) => survey_text(alloc, &survey),
        Err(refusal) => refusal_text(alloc, refusal),
    }
}
