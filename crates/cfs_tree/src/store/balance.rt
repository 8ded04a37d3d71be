//! How nodes are linked, and how a node is turned whose sides differ too much in height.

ghost use Rattle.std.specs.Prelude.{◌≡◌, ◌+◌, ◌^◌, ◌<◌, ◌≤◌, ℕ, max, length};
ghost use Rattle.cfs_tree.specs.Nodes.{end_of as the_end, end_under as the_end_under, height_under as the_height_under, stored_at, linking};
ghost use Rattle.cfs_tree.specs.Shape.{NodeTree, DifferByAtMost};
ghost use Rattle.cfs_tree.specs.Turn.{CanJoin, JoinsTo};

use super::stored_node::StoredNode;
use cfs_file::Span;

/// Where the span ends: the greatest number where it has no end.
fn end_of(span: Span) -> u64
    ensures { result ≡ the_end span }
{
    match span {
        Span::Nothing => 0,
        Span::Range { to, .. } => to,
        Span::From { .. } => u64::MAX,
    }
}

/// A copy of what stands at a number: of height 0 where the store has not that number.
pub(super) fn stored(nodes: &[StoredNode], at: u32) -> StoredNode
    ensures { result ≡ stored_at nodes.now at }
{
    nodes.get(at as usize).copied().unwrap_or(StoredNode::NONE)
}

fn height_under(nodes: &[StoredNode], at: Option<u32>) -> u32
    ensures { result ≡ the_height_under nodes.now at }
{
    match at {
        None => 0,
        Some(at) => stored(nodes, at).height,
    }
}

fn end_under(nodes: &[StoredNode], at: Option<u32>) -> u64
    ensures { result ≡ the_end_under nodes.now at }
{
    match at {
        None => 0,
        Some(at) => {
            let node = stored(nodes, at).node;
            node.left_end.max(end_of(node.span)).max(node.right_end)
        }
    }
}

/// Puts these sides under a node.
pub(super) fn link(nodes: &mut [StoredNode], at: u32, left: Option<u32>, right: Option<u32>)
    requires at { at < length nodes.old }
    requires fits { max (the_height_under nodes.old left)
        (the_height_under nodes.old right) + 1 < 2 ^ 32 }
    ensures { nodes.new ≡ linking nodes.old at left right }
{
    let mut above = stored(nodes, at);
    above.node.left = left;
    above.node.right = right;
    above.node.left_end = end_under(nodes, left);
    above.node.right_end = end_under(nodes, right);
    above.height = height_under(nodes, left).max(height_under(nodes, right)) + 1;
    nodes[at as usize] = above;
}

/// Puts two trees that differ by at most two in height under a node between them, and answers the
/// number of the root.
pub(super) fn join(nodes: &mut [StoredNode], at: u32, left: Option<u32>, right: Option<u32>) -> u32
    requires { (l r : NodeTree) × CanJoin nodes.old at left right l r }
    ensures { JoinsTo nodes.old nodes.new at left right result }
{
    let left_height = height_under(nodes, left);
    let right_height = height_under(nodes, right);
    if left_height > right_height + 1 {
        turn_right(nodes, at, left, right)
    } else if right_height > left_height + 1 {
        turn_left(nodes, at, left, right)
    } else {
        link(nodes, at, left, right);
        at
    }
}

/// The left side is two levels higher.
fn turn_right(nodes: &mut [StoredNode], at: u32, left: Option<u32>, right: Option<u32>) -> u32
    requires join { (l r : NodeTree) × CanJoin nodes.old at left right l r }
    requires higher { the_height_under nodes.old left ≡ the_height_under nodes.old right + 2 }
    ensures { JoinsTo nodes.old nodes.new at left right result }
{
    let Some(top) = left else { unreachable!() };
    let node = stored(nodes, top).node;
    if height_under(nodes, node.left) >= height_under(nodes, node.right) {
        link(nodes, at, node.right, right);
        link(nodes, top, node.left, Some(at));
        return top;
    }
    let Some(middle) = node.right else {
        unreachable!()
    };
    let inner = stored(nodes, middle).node;
    link(nodes, top, node.left, inner.left);
    link(nodes, at, inner.right, right);
    link(nodes, middle, Some(top), Some(at));
    middle
}

/// The right side is two levels higher.
fn turn_left(nodes: &mut [StoredNode], at: u32, left: Option<u32>, right: Option<u32>) -> u32
    requires join { (l r : NodeTree) × CanJoin nodes.old at left right l r }
    requires higher { the_height_under nodes.old right ≡ the_height_under nodes.old left + 2 }
    ensures { JoinsTo nodes.old nodes.new at left right result }
{
    let Some(top) = right else { unreachable!() };
    let node = stored(nodes, top).node;
    if height_under(nodes, node.right) >= height_under(nodes, node.left) {
        link(nodes, at, left, node.left);
        link(nodes, top, Some(at), node.right);
        return top;
    }
    let Some(middle) = node.left else {
        unreachable!()
    };
    let inner = stored(nodes, middle).node;
    link(nodes, at, left, inner.left);
    link(nodes, top, inner.right, node.right);
    link(nodes, middle, Some(at), Some(top));
    middle
}
