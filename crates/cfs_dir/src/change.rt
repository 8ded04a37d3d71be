//! What a request changes of a tree, and the words that tell it.

ghost use Rattle.std.specs.Prelude.{◌≡◌};
ghost use Rattle.cfs_dir.specs.Words.{change_row, change_words, replaced_word};

use crate::node::Node;
use crate::words::{NODE_WORDS, node_words};

/// How many words tell a change.
pub const CHANGE_WORDS: usize = 15;

/// The number that stands for a node that is made.
const CREATE: u64 = 1;

/// The number that stands for a node that is removed.
const REMOVE: u64 = 2;

/// The number that stands for a node that is moved.
const MOVE: u64 = 3;

/// One change of a tree (own).
#[derive(Clone, Copy, Debug, PartialEq, Eq)]
pub enum Change {
    /// The node is made, in its record.
    Create(Node),
    /// The node of this record is removed, which has this inode number.
    Remove { rec: u32, ino: u64 },
    /// The node of this record stands so from now on. The node of the record `replaced` is gone.
    Move { node: Node, replaced: Option<u32> },
}

/// The record of the node that a move replaces, plus 1, or 0.
fn replaced_word(replaced: Option<u32>) -> u64
    ensures { result ≡ replaced_word replaced }
{
    match replaced {
        Some(rec) => u64::from(rec) + 1,
        None => 0,
    }
}

/// The words of an operation on a record, with the twelve words of a node.
fn words_of(operation: u64, rec: u32, node: [u64; NODE_WORDS], last: u64) -> [u64; CHANGE_WORDS]
    ensures { result ≡ change_row operation rec node last }
{
    let mut words = [0; CHANGE_WORDS];
    words[0] = operation;
    words[1] = u64::from(rec);
    words[2..14].copy_from_slice(&node);
    words[14] = last;
    words
}

impl Change {
    /// The operation, the record's number, the twelve words of the node, of which a removal has the
    /// inode number alone, and a last word: of a move the record that it replaces, plus 1, or 0.
    pub fn words(&self) -> [u64; CHANGE_WORDS]
        ensures { result ≡ change_words self.now }
    {
        match self {
            Change::Create(node) => words_of(CREATE, node.rec, node_words(node), 0),
            Change::Remove { rec, ino } => {
                let mut node = [0; NODE_WORDS];
                node[0] = *ino;
                words_of(REMOVE, *rec, node, 0)
            }
            Change::Move { node, replaced } => {
                words_of(MOVE, node.rec, node_words(node), replaced_word(*replaced))
            }
        }
    }
}
