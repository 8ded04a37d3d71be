//! The nodes that stand in a directory.
ghost use Rattle.std.specs.Prelude.{◌≡◌, [], ◌∷◌};
ghost use Rattle.cfs_image.specs.Checks.{damage_of};
ghost use Rattle.cfs_survey.specs.Changes.{empty_check, lower_of, lowest_child};
ghost use Rattle.cfs_survey.specs.Faults.{reported};

use crate::fault::{Fault, ensure};
use cfs_dir::Node;

/// The lower of two inode numbers, or the first where there is no second.
fn lower_of(ino: u64, other: Option<u64>) -> u64
    ensures { result ≡ lower_of ino other }
{
    match other {
        Some(other) => ino.min(other),
        None => ino,
    }
}

/// The least inode number of the nodes in a directory.
fn lowest_child(nodes: &[Node], parent: u64) -> Option<u64>
    ensures { result ≡ lowest_child nodes.now parent }
{
    let mut lowest = None;
    for at in (0..nodes.len()).rev() {
        let node = nodes[at];
        if node.parent == parent {
            lowest = Some(lower_of(node.ino, lowest));
        }
    }
    lowest
}

/// Checks that no node stands in this directory, and names this offset where one does.
pub(crate) fn check_empty(at: u64, nodes: &[Node], ino: u64) -> Result<(), Fault>
    ensures { reported result ≡ damage_of (empty_check at nodes.now ino ∷ []) }
{
    let lowest = lowest_child(nodes, ino);
    ensure(lowest.is_none(), at, ino, lowest.unwrap_or(0))
}
