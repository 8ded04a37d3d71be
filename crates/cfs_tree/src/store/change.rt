//! How a node comes into a tree and leaves it.

ghost use Rattle.std.specs.Prelude.{◌≡◌, ◌<◌, ℕ, Some, length, slice_set};
ghost use Rattle.cfs_tree.specs.Shape.{NodeTree};
ghost use Rattle.cfs_tree.specs.Change.{CanInsert, CanJoinSides, InsertsTo, IsTree, JoinsSides, RemovesAndFrees, RemovesTo, TakesLeast};
ghost use Rattle.cfs_tree.specs.Nodes.{alone_at};

use super::balance::{join, link, stored};
use super::stored_node::StoredNode;
use cfs_file::Span;

/// Writes the node of a place at a free number and puts it into the tree of a root, and answers the
/// number of the new root.
pub(super) fn insert_node(
    nodes: &mut [StoredNode],
    root: Option<u32>,
    at: u32,
    place: u64,
    span: Span,
) -> u32
    requires within { at < length nodes.old }
    requires tree { (t : NodeTree)
        × CanInsert (slice_set nodes.old at (alone_at place span)) root at t }
    ensures { InsertsTo (slice_set nodes.old at (alone_at place span)) nodes.new root at result }
{
    nodes[at as usize] = StoredNode::alone(place, span);
    insert_under(nodes, root, at)
}

/// Takes a node out of the tree of a root and frees its number, and answers the root of
/// what is left.
pub(super) fn remove_node(nodes: &mut [StoredNode], root: Option<u32>, gone: u32) -> Option<u32>
    requires within { gone < length nodes.old }
    requires tree { (t : NodeTree) × IsTree nodes.old root t }
    ensures { RemovesAndFrees nodes.old nodes.new root gone result }
{
    let left = remove_under(nodes, root, gone);
    let node = stored(nodes, gone).node;
    nodes[gone as usize] = StoredNode { node, height: 0 };
    left
}

/// Puts a new node into the tree of a root, and answers the number of the new root.
fn insert_under(nodes: &mut [StoredNode], at: Option<u32>, new: u32) -> u32
    requires { (t : NodeTree) × CanInsert nodes.old at new t }
    ensures { InsertsTo nodes.old nodes.new at new result }
{
    let Some(at) = at else {
        link(nodes, new, None, None);
        return new;
    };
    let node = stored(nodes, at).node;
    if stored(nodes, new).node.comes_before(&node) {
        let left = insert_under(nodes, node.left, new);
        join(nodes, at, Some(left), node.right)
    } else {
        let right = insert_under(nodes, node.right, new);
        join(nodes, at, node.left, Some(right))
    }
}

/// Takes a node out of the tree of a root, and answers the root of what is left.
fn remove_under(nodes: &mut [StoredNode], at: Option<u32>, gone: u32) -> Option<u32>
    requires { (t : NodeTree) × IsTree nodes.old at t }
    ensures { RemovesTo nodes.old nodes.new at gone result }
{
    let Some(at) = at else {
        return None;
    };
    let node = stored(nodes, at).node;
    if at == gone {
        return join_sides(nodes, node.left, node.right);
    }
    if stored(nodes, gone).node.comes_before(&node) {
        let left = remove_under(nodes, node.left, gone);
        Some(join(nodes, at, left, node.right))
    } else {
        let right = remove_under(nodes, node.right, gone);
        Some(join(nodes, at, node.left, right))
    }
}

/// One tree of two, the second of which comes behind the first.
fn join_sides(nodes: &mut [StoredNode], left: Option<u32>, right: Option<u32>) -> Option<u32>
    requires { (l r : NodeTree) × CanJoinSides nodes.old left right l r }
    ensures { JoinsSides nodes.old nodes.new left right result }
{
    let Some(first) = right else {
        return left;
    };
    let (least, rest) = take_least(nodes, first);
    Some(join(nodes, least, left, rest))
}

/// Takes the first node out of the tree of a root: its number, and the root of what is left.
fn take_least(nodes: &mut [StoredNode], at: u32) -> (u32, Option<u32>)
    requires { (t : NodeTree) × IsTree nodes.old (Some at) t }
    ensures { TakesLeast nodes.old nodes.new at result.0 result.1 }
{
    let node = stored(nodes, at).node;
    let Some(left) = node.left else {
        return (at, node.right);
    };
    let (least, rest) = take_least(nodes, left);
    (least, Some(join(nodes, at, rest, node.right)))
}
