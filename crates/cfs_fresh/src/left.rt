//! What a crash leaves of a tree of names, read plainly: by the words alone, without the crates
//! that recover it.

use cfs_names::StoredTree;
use cfs_pmem::{MemRegion, Pick};

/// The words that a crash leaves of a stored tree.
#[derive(Drop)]
pub struct Left {
    selector: MemRegion,
    tables: Vec<MemRegion>,
    records: Vec<MemRegion>,
}

impl Left {
    /// What a crash with the pick of a number leaves: the selector first, then the two copies of
    /// the table, then the records of the journal.
    pub fn of(stored: StoredTree<MemRegion>, number: u64) -> Left {
        let (_tree, journal, checkpoint) = stored.into_parts();
        let (mut selector, mut tables) = checkpoint.into_parts();
        let mut records = journal.into_parts();
        let mut pick = Pick::new(number);
        selector.crash(&mut pick);
        crash_all(tables.as_mut_slice(), &mut pick);
        crash_all(records.as_mut_slice(), &mut pick);
        Left {
            selector,
            tables,
            records,
        }
    }

    /// The word of the selector: which copy of the table counts, and how many changes it has.
    pub fn selector(&self) -> u64 {
        word_at(Some(&self.selector), 0)
    }

    /// The gate of a record of the journal; 0 where there is no such record.
    pub fn gate(&self, record: usize) -> u64 {
        word_at(self.records.get(record), 0)
    }

    /// One of the twelve words of the node that is recovered at a record of the tree; 0 without a
    /// node. It is that of the selected table, changed by the records whose gates go on from there.
    pub fn recovered(&self, rec: u32, at: usize) -> u64 {
        let selected = self.selector();
        let table = self.tables.get((selected % 2) as usize);
        let first = (rec as usize).saturating_mul(12).saturating_add(1);
        let mut word = word_at(table, first.saturating_add(at));
        for step in 0..64 {
            let number = (selected / 2).saturating_add(step);
            let entry = self.records.get((number % 64) as usize);
            if word_at(entry, 0) != number.saturating_add(1) {
                return word;
            }
            word = changed(word, entry, u64::from(rec), at);
        }
        word
    }
}

fn crash_all(regions: &mut [MemRegion], pick: &mut Pick) {
    for region in regions.iter_mut() {
        region.crash(pick);
    }
}

/// A word of a region; 0 where there is none.
fn word_at(region: Option<&MemRegion>, at: usize) -> u64 {
    match region {
        Some(region) => region.words().get(at).copied().unwrap_or(0),
        None => 0,
    }
}

/// What a record of the journal makes of one of the twelve words of the node at a record of the
/// tree: behind its gate stand the operation, where 2 removes, the record of the tree, the twelve
/// words, and the record of a node that is replaced, plus 1.
fn changed(word: u64, entry: Option<&MemRegion>, rec: u64, at: usize) -> u64 {
    if word_at(entry, 15) == rec.saturating_add(1) {
        return 0;
    }
    if word_at(entry, 2) != rec {
        return word;
    }
    if word_at(entry, 1) == 2 {
        return 0;
    }
    word_at(entry, at.saturating_add(3))
}
