//! The directory tree: files and directories by their names, and the calls that look them up, make
//! them and remove them.
//!
//! A tree is seen as the list of its nodes, by ascending record, and the next inode number. What
//! each call answers is a walk by names over that list (specs/Step.antt), which the code never
//! makes: it finds each name of a path by one look-up in an index from directory and name to
//! record, and one of the record's inode number among the nodes.
//! After POSIX.1-2017, Base Definitions, section 4.13; the bounds, the record numbers and the order
//! of the refusals are this project's own.
#![tactic(auto)]

mod change;
mod child;
mod kind;
mod laws;
mod moved;
mod name;
mod name_byte;
mod node;
mod nodes;
mod path;
mod place;
mod posix;
mod refusal;
mod rules;
mod tree;
mod words;

pub use change::{CHANGE_WORDS, Change};
pub use kind::Kind;
pub use laws::{changes_are_told, nodes_are_told, tables_are_told};
pub use moved::Moved;
pub use name::{LONGEST_NAME, Name};
pub use node::Node;
pub use path::{Component, LONGEST_COMPONENT, MOST_NAMES, Path, PathRefusal};
pub use place::Place;
pub use posix::Posix;
pub use refusal::TreeRefusal;
pub use rules::{DEEPEST, path_refusal, paths_refusal};
pub use tree::{INODE_END, RECORDS, Tree};
pub use words::{NODE_WORDS, node_words};
