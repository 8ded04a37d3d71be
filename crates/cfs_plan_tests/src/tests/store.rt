//! The words of a small store of two queues and sixteen blocks, and the plan of a mount of it.
use cfs_plan::plan_mount;
use cfs_replay::{Pending, Plan};
use cfs_survey::{HEAD_WORDS, RECORD_WORDS, StoreWords, survey_words};
use std::alloc::Global;
use std::test::Fail;

/// The words of a table that are not zero, in lines of an index and the words from there on: the
/// next inode number, the root, the directory `/d`, the file `/d/fg`, a file `/aa..a` of forty
/// letters in record 4, and the directory `/d/h` in record 255.
const TABLE: &str = "\
0 10
1 1 1 2 511 0 0 0
13 2 1 2 493 10 10 1 100
25 3 2 1 420 10 10 2 26470
49 4 1 1 0 4294967295 4294967295 40 7016996765293437281 7016996765293437281
58 7016996765293437281 7016996765293437281 7016996765293437281
3061 9 2 2 511 0 0 1 104
";

/// The selector of the second table, which holds the tree through the change 62.
const SELECTOR: u64 = 125;

/// The words of that table.
fn table(alloc: Global) -> Result<Vec<u64>, Fail> {
    let mut words = vec![in alloc; 0; 3073]?;
    for line in TABLE.lines() {
        let mut numbers = line.split(' ');
        let from = numbers.next().ok_or("index")?.parse::<usize>()?;
        for (k, word) in numbers.enumerate() {
            set_word(&mut words, from.saturating_add(k), word.parse::<u64>()?);
        }
    }
    Ok(words)
}

/// The words of that store, whose journal, slots and blocks are blank.
pub(crate) fn blank_store(alloc: Global) -> Result<StoreWords, Fail> {
    Ok(StoreWords {
        selector: SELECTOR,
        table: table(alloc)?,
        journal: vec![in alloc; [0; RECORD_WORDS]; 64]?,
        sizes: vec![in alloc; 0; 256]?,
        slots: vec![in alloc; [0; HEAD_WORDS]; 32]?,
        tags: vec![in alloc; 0; 16]?,
    })
}

/// Sets a word of a list.
fn set_word(words: &mut [u64], index: usize, word: u64) {
    if index < words.len() {
        words[index] = word;
    }
}

/// Sets a word of a list of records.
fn set_record<const WORDS: usize>(records: &mut [[u64; WORDS]], index: usize, word: u64) {
    if WORDS > 0 && index / WORDS < records.len() {
        records[index / WORDS][index % WORDS] = word;
    }
}

/// Sets a word of a part of a store, which is named by a letter.
fn set_part(store: &mut StoreWords, part: &str, index: usize, word: u64) {
    match part {
        "table" => set_word(&mut store.table, index, word),
        "journal" => set_record(&mut store.journal, index, word),
        "size" => set_word(&mut store.sizes, index, word),
        "tag" => set_word(&mut store.tags, index, word),
        "slot" => set_record(&mut store.slots, index, word),
        _ => store.selector = word,
    }
}

/// Changes words of a store, each given as a part, an index in it and a word: `size:3=8192`.
pub(crate) fn change(store: &mut StoreWords, changes: &str) -> Result<(), Fail> {
    for change in changes.split(' ') {
        let (place, word) = change.split_once('=').ok_or("change")?;
        let (part, index) = place.split_once(':').ok_or("part")?;
        set_part(store, part, index.parse::<usize>()?, word.parse::<u64>()?);
    }
    Ok(())
}

/// Adds places to a text behind the name of their list.
fn push_places(alloc: Global, text: &mut String, name: &str, places: &[usize]) -> Result<(), Fail> {
    text.push_str(name)?;
    for place in places {
        let told = format!(in alloc; " {place}")?;
        text.push_str(told.as_str())?;
    }
    Ok(())
}

/// Adds live entries to a text: of each its record, its inode number and its slot.
fn push_entries(alloc: Global, text: &mut String, entries: &[Pending]) -> Result<(), Fail> {
    text.push_str(" entries")?;
    for entry in entries {
        let told = format!(in alloc; " {}:{}@{}", entry.node, entry.ino, entry.slot)?;
        text.push_str(told.as_str())?;
    }
    Ok(())
}

/// A plan as text, list by list.
fn plan_text(alloc: Global, plan: &Plan) -> Result<String, Fail> {
    let mut text = String::new(alloc);
    push_places(alloc, &mut text, "dead", &plan.dead)?;
    push_entries(alloc, &mut text, &plan.entries)?;
    push_places(alloc, &mut text, " untagged", &plan.untagged)?;
    push_places(alloc, &mut text, " emptied", &plan.emptied)?;
    Ok(text)
}

/// The plan of a mount of these words, as text.
pub(crate) fn answer(alloc: Global, store: &StoreWords) -> Result<String, Fail> {
    if store.table.len() != 3073
        || store.journal.len() != 64
        || store.sizes.len() != 256
        || store.slots.len() > 1024
        || store.tags.len() > 16_384
    {
        return Ok(format!(in alloc; "no store")?);
    }
    let survey = survey_words(alloc, store)?;
    let plan = plan_mount(alloc, store, &survey)?;
    plan_text(alloc, &plan)
}
