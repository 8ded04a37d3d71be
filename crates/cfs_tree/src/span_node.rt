//! A node of the tree.

ghost use Rattle.std.specs.Prelude.{◌≡◌, ◌<◌, ◌↔◌, IsTrue};
ghost use Rattle.cfs_tree.specs.Nodes.{start_of as the_start, rank_of};

use cfs_file::Span;

/// The span of a place, with the numbers of the nodes below it. A span without end counts with the
/// end 18,446,744,073,709,551,615, and a missing child with the end 0.
#[derive(Clone, Copy, Debug, PartialEq, Eq)]
pub struct SpanNode {
    /// The place.
    pub place: u64,
    /// Its span.
    pub span: Span,
    /// The node below it whose spans come before, in the order of the tree.
    pub left: Option<u32>,
    /// The node below it whose spans come after.
    pub right: Option<u32>,
    /// The greatest end under `left`.
    pub left_end: u64,
    /// The greatest end under `right`.
    pub right_end: u64,
}

impl SpanNode {
    /// Whether this node stands before the other in the tree: by where the spans start, and then by
    /// place.
    pub(crate) fn comes_before(&self, other: &SpanNode) -> bool
        ensures { IsTrue result ↔ (rank_of self.now < rank_of other.now) }
    {
        let (from, place) = (start_of(&self.span), self.place);
        let (other_from, other_place) = (start_of(&other.span), other.place);
        from < other_from || (from == other_from && place < other_place)
    }
}

pub(crate) fn start_of(span: &Span) -> u64
    ensures { result ≡ the_start span.now }
{
    match *span {
        Span::Nothing => 0,
        Span::Range { from, .. } | Span::From { from } => from,
    }
}
