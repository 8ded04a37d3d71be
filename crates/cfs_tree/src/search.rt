//! The search for the smallest place whose span is asked for.

ghost use Rattle.std.specs.Prelude.{◌≡◌, ◌<◌, ◌≤◌, ◌-◌, ◌↔◌, ℕ, IsTrue, MatchOption, [], ◌∷◌};
ghost use Rattle.cfs_tree.specs.Search.{IsAsked, LeastAmong, CanSearch, FindsAll, IsSearchOf, lesser_of};
ghost use Rattle.cfs_tree.specs.Spans.{IsBounded, HasPositions};
ghost use Rattle.cfs_tree.specs.Shape.{NodeTree};

use crate::span_node::start_of;
use crate::{SpanNode, SpanStore, Steps};
use cfs_file::{Span, covers, overlaps};
use std::sync::ledger::Ledger;

/// How an asked span stands to the spans that are looked for.
#[derive(Clone, Copy, Debug, PartialEq, Eq)]
pub(crate) enum Relation {
    /// It overlaps them.
    Overlaps,
    /// It covers them.
    Covers,
}

/// What is looked for: a place between two others, whose span stands so to the asked one. The asked
/// span has the positions from `from` on, below `end`, which is the greatest number where it has no
/// end.
#[derive(Clone, Copy, Debug, PartialEq, Eq)]
pub(crate) struct Search {
    pub(crate) relation: Relation,
    pub(crate) asked: Span,
    pub(crate) from: u64,
    pub(crate) end: u64,
    pub(crate) after: u64,
    pub(crate) before: u64,
}

impl Search {
    /// A search, and none where the asked span has no position: it overlaps and covers nothing.
    pub(crate) fn of(relation: Relation, asked: Span, after: u64, before: u64) -> Option<Search>
        requires { IsBounded asked }
        ensures { MatchOption result (HasPositions asked → ⊥)
            (IsSearchOf relation asked after before) }
    {
        let (from, end) = match asked {
            Span::Range { from, to } if from < to => (from, to),
            Span::From { from } => (from, u64::MAX),
            _ => return None,
        };
        Some(Search {
            relation,
            asked,
            from,
            end,
            after,
            before,
        })
    }

    /// Whether the node's place and span are what is looked for.
    fn takes(self, node: SpanNode) -> bool
        ensures { IsTrue result ↔ IsAsked self (node.place, node.span) }
    {
        let is_between = self.after < node.place && node.place < self.before;
        match self.relation {
            Relation::Overlaps => is_between && overlaps(&self.asked, &node.span),
            Relation::Covers => is_between && covers(&self.asked, &node.span),
        }
    }

    /// The node's own place, where it is looked for.
    fn own(self, node: SpanNode) -> Option<u64>
        ensures { LeastAmong (IsAsked self) ((node.place, node.span) ∷ []) result }
    {
        if self.takes(node) {
            Some(node.place)
        } else {
            None
        }
    }

    /// The smallest place under a link that is looked for, where all spans there end by the reach.
    /// A side whose spans end too early takes no step, and the right one none where its spans
    /// start too late.
    pub(crate) fn least_under<L: Ledger>(
        self,
        store: &SpanStore,
        at: Option<u32>,
        reach: u64,
        steps: &mut Steps<L>,
    ) -> Option<u64>
        requires { (t : NodeTree) × CanSearch self store.now at reach t }
        ensures found { FindsAll self store.now at reach (steps.new - steps.old) result }
        ensures later { steps.old ≤ steps.new }
    {
        if reach <= self.from {
            return None;
        }
        let Some(at) = at else {
            return None;
        };
        let Some(node) = store.node(at, steps) else {
            return None;
        };
        let node = *node;
        let left = self.least_under(store, node.left, node.left_end, steps);
        if self.end <= start_of(&node.span) {
            return left;
        }
        let right = self.least_under(store, node.right, node.right_end, steps);
        lesser(left, lesser(self.own(node), right))
    }
}

fn lesser(a: Option<u64>, b: Option<u64>) -> Option<u64>
    ensures { result ≡ lesser_of a b }
{
    match (a, b) {
        (Some(a), Some(b)) => Some(a.min(b)),
        (None, other) | (other, None) => other,
    }
}
