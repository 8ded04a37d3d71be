//! What is told of a store that was brought home.
use cfs_survey::{StoreWords, Survey};

/// What a store held before it was brought home, and how much was done.
#[derive(Drop)]
pub struct Restored {
    /// The words that a survey looks at, as they were read before anything was written.
    pub words: StoreWords,
    /// What they told: the tree, the block of each tag of a file, and the live entries.
    pub survey: Survey,
    /// How many live entries were brought home, the heads of long writes counted alone.
    pub replayed: usize,
}
