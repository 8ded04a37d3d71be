//! The words of a store that a survey looks at.
use crate::changes::RECORD_WORDS;
use crate::heads::HEAD_WORDS;

/// The words of a store that tell its tree, its files and what is to be done in them.
#[derive(Debug, Drop)]
pub struct StoreWords {
    /// The selector's.
    pub selector: u64,
    /// Those of the table that it selects, 3073.
    pub table: Vec<u64>,
    /// Those of each of the journal's 64 records.
    pub journal: Vec<[u64; RECORD_WORDS]>,
    /// The size of the file in each of the 256 records, in bytes.
    pub sizes: Vec<u64>,
    /// Of each slot, 16 of each queue, the words before its payload.
    pub slots: Vec<[u64; HEAD_WORDS]>,
    /// The tag of each block.
    pub tags: Vec<u64>,
}
