ghost use Rattle.std.specs.Prelude.{◌≡◌, ◌<◌, ◌++◌, ℕ, [], ◌∷◌, OnErr, OnOk};
ghost use Rattle.cfs_lock.specs.Log.{Grows, IsNewTo};
ghost use Rattle.cfs_fake.specs.Listed.{log_of, part_of};

use cfs_lock::Recorded;
use std::alloc::{AllocError, Global};

/// For how many numbers a list keeps a mark.
pub const NUMBERS: usize = 4;

/// A word that was noted under a number.
#[derive(Clone, Copy, Debug, PartialEq, Eq)]
pub struct Note {
    pub by: u32,
    pub word: u64,
}

/// A list of notes, with the last word of each number as its mark.
#[derive(Drop)]
pub struct Listed {
    notes: Vec<Note>,
    marks: [u64; 4],
}

impl Recorded for Listed {
    ghost log = { log_of };

    ghost part = { part_of };

    fn count(&self) -> u64 {
        self.notes.len() as u64
    }
}

impl Listed {
    /// An empty list.
    pub fn new(alloc: Global) -> Listed
        ensures empty { result.notes.items ≡ [] }
        ensures new { (passes : ℕ) → IsNewTo log_of part_of passes result }
    {
        Listed {
            notes: Vec::new(alloc),
            marks: [0; NUMBERS],
        }
    }

    /// The notes so far.
    pub fn notes(&self) -> &[Note]
        ensures { result.now ≡ self.now.notes.items }
    {
        self.notes.as_slice()
    }

    /// Notes a word, and marks the number with it.
    pub fn add(&mut self, by: u32, word: u64) -> Result<(), AllocError>
        requires { by < 4 }
        ensures grows { Grows log_of part_of by self.old self.new }
        ensures added { OnOk result (self.new.notes.items ≡
            self.old.notes.items ++ record { by = by; word = word } ∷ []) }
        ensures none { OnErr result (self.new.notes.items ≡ self.old.notes.items) }
    {
        self.notes.push(Note { by, word })?;
        self.marks[by as usize] = word;
        Ok(())
    }

    /// Whether the words of a number are 1 to `count`, in order.
    pub fn counts_up(&self, by: u32, count: u64) -> bool {
        let mut next = 1u64;
        for note in self.notes.as_slice() {
            if note.by == by {
                if note.word != next {
                    return false;
                }
                next = next.saturating_add(1);
            }
        }
        next == count.saturating_add(1)
    }
}
