ghost use Rattle.std.specs.Prelude.{◌≡◌};

use crate::SpanNode;
use cfs_file::Span;

/// A node and the height of the tree below it, itself counted; 0 where the number is free.
#[derive(Clone, Copy, Debug, PartialEq, Eq)]
pub(super) struct StoredNode {
    pub(super) node: SpanNode,
    pub(super) height: u32,
}

impl StoredNode {
    ghost use Rattle.cfs_tree.specs.Nodes.{alone_at};

    /// What stands at a number that the store has not.
    pub(super) const NONE: StoredNode = StoredNode {
        node: SpanNode {
            place: 0,
            span: Span::Nothing,
            left: None,
            right: None,
            left_end: 0,
            right_end: 0,
        },
        height: 0,
    };

    /// The node of a place, linked to nothing yet.
    pub(super) fn alone(place: u64, span: Span) -> StoredNode
        ensures { result ≡ alone_at place span }
    {
        StoredNode {
            node: SpanNode {
                place,
                span,
                ..StoredNode::NONE.node
            },
            height: 1,
        }
    }
}
