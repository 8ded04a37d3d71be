//! The tree of spans.

ghost use Rattle.std.specs.Prelude.{◌≡◌, ◌≤◌, ◌<◌, ◌+◌, ◌-◌, ◌↔◌, ℕ, Some, None, [], IsTrue, IsSome, IfSome, OnOk};

use crate::search::{Relation, Search};
use crate::{SpanStore, Steps};
use cfs_file::{NoMemory, Span};
use std::alloc::Global;
use std::marker::Model;
use std::sync::ledger::Ledger;

/// Spans by place, in a balanced tree ordered by where they start: it is seen as their list in this
/// order, and the room that it has for more. It has no field but the store of its nodes and the
/// number of the root. Every call but `new` and `reserve` takes no memory.
#[derive(Drop)]
pub struct SpanTree {
    store: SpanStore,
    root: Option<u32>,
}

impl Model for SpanTree {
    ghost use Rattle.cfs_tree.specs.Spans.{SpanList};

    ghost Value = { SpanList };

    ghost use Rattle.cfs_tree.specs.Holding.{Holds, list_of, tree_under};

    ghost view = { λ a. list_of a.store (tree_under a.store.nodes.items a.root) };

    ghost invariant = { λ a. Holds a.store a.root (tree_under a.store.nodes.items a.root) };
}

impl SpanTree {
    ghost use Rattle.cfs_tree.specs.Spans.{span_at, insert_in_order, without_place, IsBounded, HasPositions, IsLeast, OverlapsBetween, CoveredBetween, IsWithinBound};

    /// A tree without spans and without room. It takes no memory.
    pub fn new(alloc: Global) -> SpanTree
        ensures { result.spans ≡ [] }
    {
        SpanTree {
            store: SpanStore::new(alloc),
            root: None,
        }
    }

    /// Makes room for one span more at least. Refused for want of memory alone, and where
    /// 4,294,967,294 nodes stand.
    pub fn reserve(&mut self) -> Result<(), NoMemory>
        ensures spans { self.new.spans ≡ self.old.spans }
        ensures room { self.old.spare ≤ self.new.spare }
        ensures ok { OnOk result (0 < self.new.spare) }
    {
        self.store.reserve()
    }

    /// Keeps a span for a new place. The span has a position, and its numbers are below
    /// 18,446,744,073,709,551,615. Takes no memory.
    pub fn insert(&mut self, place: u64, span: Span)
        requires room { 0 < self.old.spare }
        requires new { span_at self.old.spans place ≡ None }
        requires positions { HasPositions span }
        requires bounded { IsBounded span }
        ensures spans { self.new.spans ≡ insert_in_order (place, span) self.old.spans }
        ensures room { self.old.spare ≤ self.new.spare + 1 }
    {
        self.root = Some(self.store.insert(self.root, place, span));
    }

    /// Keeps the span of a place no longer, and answers whether it was kept.
    pub fn remove(&mut self, place: u64) -> bool
        ensures kept { IsTrue result ↔ IsSome (span_at self.old.spans place) }
        ensures spans { self.new.spans ≡ without_place place self.old.spans }
        ensures room { self.old.spare ≤ self.new.spare }
    {
        match self.store.remove(self.root, place) {
            None => false,
            Some(root) => {
                self.root = root;
                true
            }
        }
    }

    /// The span kept for a place, and none exactly where the place is not kept, in one step.
    pub fn find<L: Ledger>(&self, place: u64, steps: &mut Steps<L>) -> Option<Span>
        ensures exact { result ≡ span_at self.now.spans place }
        ensures fit { IfSome result (λ span. IsBounded span × HasPositions span) }
        ensures cost { steps.new ≡ steps.old + 1 }
    {
        self.store.find(place, steps)
    }

    /// The smallest kept place above `after` and below `before` whose span overlaps the asked one,
    /// and none exactly where there is none.
    pub fn first_overlap_between<L: Ledger>(
        &self,
        span: &Span,
        after: u64,
        before: u64,
        steps: &mut Steps<L>,
    ) -> Option<u64>
        requires { IsBounded span.now }
        ensures least { IsLeast (OverlapsBetween self.now.spans span.now after before) result }
        ensures cost { IsWithinBound self.now.spans span.now (steps.new - steps.old) }
    {
        let root = self.root;
        match Search::of(Relation::Overlaps, *span, after, before) {
            None => None,
            Some(search) => search.least_under(&self.store, root, u64::MAX, steps),
        }
    }

    /// The smallest kept place above `after` and below `before` whose span the asked one covers,
    /// and none exactly where there is none.
    pub fn next_covered<L: Ledger>(
        &self,
        span: &Span,
        after: u64,
        before: u64,
        steps: &mut Steps<L>,
    ) -> Option<u64>
        requires { IsBounded span.now }
        ensures least { IsLeast (CoveredBetween self.now.spans span.now after before) result }
        ensures cost { IsWithinBound self.now.spans span.now (steps.new - steps.old) }
    {
        let root = self.root;
        match Search::of(Relation::Covers, *span, after, before) {
            None => None,
            Some(search) => search.least_under(&self.store, root, u64::MAX, steps),
        }
    }
}
