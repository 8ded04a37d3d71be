//! Where a node stands in its tree.
ghost use Rattle.std.specs.Prelude.{◌≡◌, ◌<◌, ◌^◌, option_copied};
ghost use Rattle.cfs_dir.specs.Namespace.{node_of};
ghost use Rattle.cfs_dir.specs.Tree.{leads_to_root};
ghost use Rattle.cfs_image.specs.Checks.{damage_of};
ghost use Rattle.cfs_survey.specs.Faults.{reported};
ghost use Rattle.cfs_survey.specs.Places.{names_directory, place_checks, places_checks, rec_of, twin_of};
ghost use Rattle.cfs_survey.specs.Tables.{row_at};

use crate::fault::{Fault, ensure};
use cfs_dir::{DEEPEST, Node};

/// The node of an inode number.
pub(crate) fn node_of(nodes: &[Node], ino: u64) -> Option<&Node>
    ensures { option_copied result ≡ node_of nodes.now ino }
{
    nodes.iter().find(|node| node.ino == ino)
}

/// Whether an inode number is that of a directory.
pub(crate) fn names_directory(nodes: &[Node], ino: u64) -> bool
    ensures { result ≡ names_directory nodes.now ino }
{
    match node_of(nodes, ino) {
        Some(node) => node.kind.is_directory(),
        None => false,
    }
}

/// The node of a lower record that has the same parent and name.
fn twin_of<'a>(nodes: &'a [Node], node: &Node) -> Option<&'a Node>
    ensures { option_copied result ≡ twin_of nodes.now node.now }
{
    nodes.iter().find(|other| {
        other.rec < node.rec && other.parent == node.parent && other.name == node.name
    })
}

/// Whether at most so many parents lead from an inode number to the root's.
pub(crate) fn leads_to_root(nodes: &[Node], ino: u64, steps: usize) -> bool
    ensures { result ≡ leads_to_root steps nodes.now ino }
{
    if ino == 1 {
        return true;
    }
    if steps == 0 {
        return false;
    }
    match node_of(nodes, ino) {
        Some(node) => leads_to_root(nodes, node.parent, steps - 1),
        None => false,
    }
}

/// The record of a node, or 0 where there is none.
pub(crate) fn rec_of(node: Option<&Node>) -> u64
    ensures { result ≡ rec_of (option_copied node.entry) }
{
    match node {
        Some(node) => u64::from(node.rec),
        None => 0,
    }
}

/// Checks where a node stands in a tree. Its words stand at this offset.
pub(crate) fn check_place(at: u64, nodes: &[Node], node: &Node) -> Result<(), Fault>
    requires { at < 2 ^ 48 }
    ensures { reported result ≡ damage_of (place_checks at nodes.now node.now) }
{
    let parent = node.parent;
    ensure(names_directory(nodes, parent), at + 8, parent, 0)?;
    let twin = twin_of(nodes, node);
    ensure(twin.is_none(), at, u64::from(node.rec), rec_of(twin))?;
    ensure(
        leads_to_root(nodes, node.ino, DEEPEST),
        at,
        node.ino,
        DEEPEST as u64,
    )
}

/// Where the words of a record begin, in a table that begins at this offset.
pub(crate) fn row_at(at: u64, rec: u32) -> u64
    requires { at < 2 ^ 32 }
    ensures at { result ≡ row_at at rec }
    ensures low { result < 2 ^ 48 }
{
    at + 8 * (1 + 12 * u64::from(rec))
}

/// Checks where a node of a table stands, which begins at this offset.
fn check_row(at: u64, nodes: &[Node], node: &Node) -> Result<(), Fault>
    requires { at < 2 ^ 32 }
    ensures { reported result ≡
        damage_of (place_checks (row_at at node.now.rec) nodes.now node.now) }
{
    check_place(row_at(at, node.rec), nodes, node)
}

/// Checks where each node of a table stands, which begins at this offset.
pub(crate) fn check_places(at: u64, nodes: &[Node]) -> Result<(), Fault>
    requires { at < 2 ^ 32 }
    ensures { reported result ≡ damage_of (places_checks (row_at at) nodes.now) }
{
    for node in nodes {
        check_row(at, nodes, node)?;
    }
    Ok(())
}
