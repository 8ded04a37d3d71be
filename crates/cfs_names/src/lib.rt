//! The tree of names on its device: the tree, the journal of its changes and its checkpoint.
//!
//! A change of the tree is a record of the journal before it is one of the tree. Where the journal
//! is full, the tree as it stands is stored as a checkpoint first. So a crash at any moment
//! recovers the tree, or the tree with the one change that was under way: the selected table, and
//! then the changes that the journal holds above its number.
#![tactic(auto)]

mod store_refusal;
mod stored_tree;

pub use store_refusal::StoreRefusal;
pub use stored_tree::StoredTree;
