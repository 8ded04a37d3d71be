//! Which inode numbers are those of files.
ghost use Rattle.std.specs.Prelude.{◌≡◌, ◌∷◌, [], IfOk, OnOk, ℕ, nat_eq, unwrap_or, false};
ghost use Rattle.std.specs.HashMap.{get};
ghost use Rattle.std.specs.Option.{option_or};
ghost use Rattle.cfs_fsck.specs.Files.{AreKinds, kind_of};

use cfs_dir::Node;
use cfs_file::NoMemory;
use std::alloc::Global;
use std::collections::HashMap;

/// Of each inode number whether its node is a file.
pub(crate) type Kinds = HashMap<u64, bool>;

/// Of each inode number among these nodes whether its node is a file.
pub(crate) fn kinds_of(alloc: Global, nodes: &[Node]) -> Result<Kinds, NoMemory>
    ensures { IfOk result (AreKinds nodes.now) }
{
    let mut kinds = HashMap::with_capacity(alloc, nodes.len())?;
    for node in nodes {
        note_kind(&mut kinds, node)?;
    }
    Ok(kinds)
}

/// Notes whether a node is a file, unless its inode number is noted.
fn note_kind(kinds: &mut Kinds, node: &Node) -> Result<(), NoMemory>
    ensures { OnOk result ((ino : ℕ) → get nat_eq kinds.new ino ≡
        option_or (get nat_eq kinds.old ino) (kind_of (node.now ∷ []) ino)) }
{
    if !kinds.contains_key(&node.ino) {
        kinds.insert(node.ino, !node.kind.is_directory())?;
    }
    Ok(())
}

/// Whether an inode number is that of a file.
pub(crate) fn is_file(kinds: &Kinds, ino: u64) -> bool
    ensures { result ≡ unwrap_or (get nat_eq kinds.now ino) false }
{
    kinds.get(&ino).copied().unwrap_or(false)
}
