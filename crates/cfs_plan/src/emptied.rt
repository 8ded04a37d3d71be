//! Records of no file whose size words are not 0.
ghost use Rattle.std.specs.Prelude.{All, IfOk, ◌≡◌, ◌==◌, ◌&&◌, ◌<◌, if◌then◌else◌, length, not};
ghost use Rattle.std.specs.Prelude.{false, get_or, set, true};
ghost use Rattle.cfs_dir.specs.Namespace.{is_directory};
ghost use Rattle.cfs_plan.specs.Files.{HasFiles, files_of};
ghost use Rattle.cfs_plan.specs.Lists.{leftover_records};

use crate::lists::note_where;
use cfs_dir::Node;
use cfs_file::NoMemory;
use std::alloc::Global;

/// Notes that the record of a node is that of a file, where the node is one.
fn set_flag(flags: &mut Vec<bool>, node: &Node)
    requires { node.now.rec < length flags.old.items }
    ensures { flags.new.items ≡ (if is_directory node.now.kind then flags.old.items
        else set flags.old.items node.now.rec true) }
{
    if !node.kind.is_directory() {
        flags[node.rec as usize] = true;
    }
}

/// Whether each of so many records is that of a file.
fn file_flags(alloc: Global, nodes: &[Node], count: usize) -> Result<Vec<bool>, NoMemory>
    requires { All (λ node. node.rec < count) nodes.now }
    ensures len { IfOk result (λ flags. length flags.items ≡ count) }
    ensures flags { IfOk result (λ flags. HasFiles (files_of nodes.now) flags.items) }
{
    let mut flags = vec![in alloc; false; count]?;
    for node in nodes {
        set_flag(&mut flags, node);
    }
    Ok(flags)
}

/// Whether a record has this size and no file, by the flags of all records.
fn is_leftover(flags: &[bool], rec: usize, size: u64) -> bool
    requires { rec < length flags.now }
    ensures { result ≡ (not (size == 0) && not (get_or flags.now rec false)) }
{
    size != 0 && !flags[rec]
}

/// The records of no file whose size words are not 0, ascending.
pub(crate) fn leftover_records(
    alloc: Global,
    nodes: &[Node],
    sizes: &[u64],
) -> Result<Vec<usize>, NoMemory>
    requires { All (λ node. node.rec < length sizes.now) nodes.now }
    ensures { IfOk result (λ left. left.items ≡ leftover_records (files_of nodes.now) sizes.now) }
{
    let flags = file_flags(alloc, nodes, sizes.len())?;
    let mut left = Vec::new(alloc);
    for (rec, size) in sizes.iter().enumerate() {
        note_where(&mut left, rec, is_leftover(&flags, rec, *size))?;
    }
    Ok(left)
}
