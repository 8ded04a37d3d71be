//! The store of the nodes.

ghost use Rattle.std.specs.Prelude.{◌≡◌, ◌+◌, ◌<◌, ◌≤◌, ℕ, Option, Some, None, MatchOption, OnOk, nat_eq, IsSome, length, []};
ghost use Rattle.std.specs.HashMap as hash;
ghost use Rattle.std.specs.Option.{option_copied};
ghost use Rattle.cfs_tree.specs.Store.{node_of, span_of};
ghost use Rattle.cfs_tree.specs.Shape.{NodeTree, Empty, numbers_of};
ghost use Rattle.cfs_tree.specs.Spans.{IsBounded, HasPositions, insert_in_order, without_place};
ghost use Rattle.cfs_tree.specs.Holding.{Holds, kept_of, spare_of, HoldsStill};

mod balance;
mod change;
mod stored_node;

use crate::{SpanNode, Steps};
use cfs_file::{NoMemory, Span};
use change::{insert_node, remove_node};
use std::alloc::Global;
use std::collections::HashMap;
use std::sync::ledger::Ledger;
use stored_node::StoredNode;

/// A store has no more nodes: their numbers are below it.
const MOST_NODES: usize = u32::MAX as usize - 1;

/// The nodes of a tree, by number, and the number of each place's node. Behind `&self` it is read
/// by `node` and `find` alone, and each read is one step.
#[derive(Drop)]
pub struct SpanStore {
    nodes: Vec<StoredNode>,
    free: Vec<u32>,
    numbers: HashMap<u64, u32>,
}

impl SpanStore {
    /// The node of that number, and none exactly where no node has it.
    pub fn node<L: Ledger>(&self, at: u32, steps: &mut Steps<L>) -> Option<&SpanNode>
        ensures exact { option_copied result ≡ node_of self.now at }
        ensures cost { steps.new ≡ steps.old + 1 }
    {
        steps.take();
        let stored = self.nodes.get(at as usize)?;
        if stored.height == 0 {
            return None;
        }
        Some(&stored.node)
    }

    /// The span kept for that place, and none exactly where the place is not kept.
    pub fn find<L: Ledger>(&self, place: u64, steps: &mut Steps<L>) -> Option<Span>
        ensures exact { result ≡ span_of self.now place }
        ensures cost { steps.new ≡ steps.old + 1 }
    {
        steps.take();
        let number = *self.numbers.get(&place)?;
        let stored = self.nodes.get(number as usize)?;
        Some(stored.node.span)
    }

    pub(crate) fn new(alloc: Global) -> SpanStore
        ensures { Holds result None Empty }
    {
        SpanStore {
            nodes: Vec::new(alloc),
            free: Vec::new(alloc),
            numbers: HashMap::new(alloc),
        }
    }

    /// Makes room for one more span at least.
    pub(crate) fn reserve(&mut self) -> Result<(), NoMemory>
        requires { (root : Option ℕ) × (t : NodeTree) × Holds self.old root t }
        ensures holds { (root : Option ℕ) (t : NodeTree) → Holds self.old root t →
            HoldsStill self.old self.new root t }
        ensures ok { OnOk result (0 < spare_of self.new) }
        ensures spare { spare_of self.old ≤ spare_of self.new }
    {
        self.numbers.reserve(1)?;
        if self.free.is_empty() {
            self.add_number()?;
        }
        Ok(())
    }

    /// One number more, which is free. Numbers below the greatest of 32 bits are in use.
    fn add_number(&mut self) -> Result<(), NoMemory>
        requires holds { (root : Option ℕ) × (t : NodeTree) × Holds self.old root t }
        requires none { self.old.free.items ≡ [] }
        ensures holds { (root : Option ℕ) (t : NodeTree) → Holds self.old root t →
            HoldsStill self.old self.new root t }
        ensures numbers { self.new.numbers ≡ self.old.numbers }
        ensures ok { OnOk result (0 < length self.new.free.items) }
    {
        let count = self.nodes.as_slice().len();
        if count >= MOST_NODES {
            return Err(NoMemory);
        }
        self.free.reserve(count + 1)?;
        self.nodes.push(StoredNode::NONE)?;
        self.free.push(count as u32)?;
        Ok(())
    }

    /// Keeps a span for a new place in the tree of that root, and answers the number of
    /// the new root.
    pub(crate) fn insert(&mut self, root: Option<u32>, place: u64, span: Span) -> u32
        requires holds { (t : NodeTree) × Holds self.old root t }
        requires room { 0 < spare_of self.old }
        requires new { hash.get nat_eq self.old.numbers place ≡ None }
        requires bounded { IsBounded span }
        requires positions { HasPositions span }
        ensures kept { (t : NodeTree) → Holds self.old root t →
            (u : NodeTree) × Holds self.new (Some result) u
            × (kept_of self.new.nodes.items (numbers_of u) ≡
            insert_in_order (place, span) (kept_of self.old.nodes.items (numbers_of t))) }
        ensures spare { spare_of self.old ≤ spare_of self.new + 1 }
    {
        let Some(at) = self.free.pop() else {
            unreachable!()
        };
        let _ = self.numbers.insert(place, at);
        insert_node(&mut self.nodes, root, at, place, span)
    }

    /// Takes a place out of the tree of that root, and answers the new root; none where the place
    /// is not kept.
    pub(crate) fn remove(&mut self, root: Option<u32>, place: u64) -> Option<Option<u32>>
        requires holds { (t : NodeTree) × Holds self.old root t }
        ensures kept { (t : NodeTree) → Holds self.old root t → MatchOption result
            ((hash.get nat_eq self.old.numbers place ≡ None) × (self.new ≡ self.old))
            (λ left. IsSome (hash.get nat_eq self.old.numbers place)
            × ((u : NodeTree) × Holds self.new left u
            × (kept_of self.new.nodes.items (numbers_of u) ≡
            without_place place (kept_of self.old.nodes.items (numbers_of t))))) }
        ensures spare { spare_of self.old ≤ spare_of self.new }
    {
        let gone = *self.numbers.get(&place)?;
        let _ = self.numbers.remove(&place);
        let left = remove_node(&mut self.nodes, root, gone);
        self.free.push_reserved(gone);
        Some(left)
    }
}
