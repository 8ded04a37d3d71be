//! The call that moves a node, and its two halves.
ghost use Rattle.std.specs.Prelude.{◌≡◌, ◌≤◌, ◌+◌, All, IfOk, IsSomeAnd, None, OnErr, Some, length};
ghost use Rattle.indexmap.specs.IndexMap.{index_map_len, spare};
ghost use Rattle.cfs_dir.specs.Moved.{CanMove, with_move};
ghost use Rattle.cfs_dir.specs.Namespace.{child_of, node_at, placed, without};
ghost use Rattle.cfs_dir.specs.Rename.{is_directory_there, is_file_there, is_node_there, is_occupied, is_within, goes_too_deep, move_refusal, renamed};
ghost use Rattle.cfs_dir.specs.Table.{AreAtRecords, IsIndexOf, IsRenamed, key_of, nodes_of};
ghost use Rattle.cfs_dir.specs.Tree.{IsTree};

use super::{RECORDS, Tree, has_right};
use crate::child::Child;
use crate::moved::Moved;
use crate::node::Node;
use crate::nodes::Nodes;
use crate::path::Path;
use crate::place::Place;
use crate::posix::Posix;
use crate::rules::paths_refusal;
use cfs_cred::{Credential, Want};
use indexmap::IndexMap;

impl Tree {
    /// Moves a file or a directory to another path, in one step, and gives the node as it stands
    /// then; a file or an empty directory there is replaced. It takes no memory.
    ///
    /// Refused in this order: a name `.` or `..` in one of the paths, or the root as one, with
    /// InvalidArgument; a name of more than 40 bytes or more than 16 names with NameTooLong; the
    /// refusals of the way to the node, and NotFound where it is not there; the refusals of the way
    /// to the new path. A rename of a node to itself then changes nothing. After that: a directory
    /// that would stand below itself with InvalidArgument; a directory over a file with
    /// NotADirectory; a file over a directory with IsADirectory; PermissionDenied without the right
    /// to write one of the two directories; a directory over one that has a child with
    /// DirectoryNotEmpty; and a directory of which a node would have more than 16 names with
    /// NameTooLong. A refusal changes nothing. (After POSIX.1-2017, System Interfaces, rename; the
    /// order and the bounds are own.)
    pub fn rename(&mut self, credential: Credential, from: &Path, to: &Path) -> Result<Moved, Posix>
        ensures answer { result ≡ renamed self.old credential from.now to.now }
        ensures moved { IfOk result (λ moved. self.new ≡ with_move self.old moved) }
        ensures itself { IfOk result (λ moved.
            node_at self.old.nodes moved.node.rec ≡ Some moved.node → self.new ≡ self.old) }
        ensures unchanged { OnErr result (self.new ≡ self.old) }
    {
        let moved = self.node_to_move(credential, from, to)?;
        self.move_node(&moved);
        Ok(moved)
    }

    /// What `rename` would do; nothing is changed. It is `move_node` that does it. Where the node
    /// stands so already, that changes nothing.
    pub fn node_to_move(
        &self,
        credential: Credential,
        from: &Path,
        to: &Path,
    ) -> Result<Moved, Posix>
        ensures answer { result ≡ renamed self.now credential from.now to.now }
        ensures moves { IfOk result (CanMove self.now) }
        ensures itself { IfOk result (λ moved.
            node_at self.now.nodes moved.node.rec ≡ Some moved.node →
            with_move self.now moved ≡ self.now) }
    {
        if let Some(refusal) = paths_refusal(from.names(), to.names()) {
            return Err(refusal);
        }
        let Place::Entry(parent, _, node) = self.place(credential, from)? else {
            return Err(Posix::InvalidArgument);
        };
        let Some(node) = node else {
            return Err(Posix::NotFound);
        };
        let Place::Entry(directory, name, there) = self.place(credential, to)? else {
            return Err(Posix::InvalidArgument);
        };
        if is_node_there(&node, &there) {
            return Ok(Moved {
                node,
                replaced: None,
            });
        }
        let names = to.names().len();
        let refusal = self.move_refusal(credential, &parent, &node, &directory, &there, names);
        if let Some(refusal) = refusal {
            return Err(refusal);
        }
        let node = Node {
            parent: directory.ino,
            name,
            ..node
        };
        Ok(Moved {
            node,
            replaced: there,
        })
    }

    /// Moves a node, and removes the one that it replaces. It takes no memory.
    pub fn move_node(&mut self, moved: &Moved)
        requires { CanMove self.old moved.now }
        ensures { self.new ≡ with_move self.old moved.now }
    {
        if let Some(replaced) = moved.replaced {
            self.remove(&replaced);
        }
        self.relocate(&moved.node);
    }

    /// The refusal of a move of a node to a name in a directory, at a path of so many names, where
    /// another node may stand.
    fn move_refusal(
        &self,
        credential: Credential,
        parent: &Node,
        node: &Node,
        directory: &Node,
        there: &Option<Node>,
        names: usize,
    ) -> Option<Posix>
        ensures { result ≡ move_refusal self.now.nodes credential
            parent.now node.now directory.now there.now names }
    {
        let is_directory = node.kind.is_directory();
        if is_directory && self.is_within(node.ino, directory.ino) {
            return Some(Posix::InvalidArgument);
        }
        if is_directory && is_file_there(there) {
            return Some(Posix::NotADirectory);
        }
        if !is_directory && is_directory_there(there) {
            return Some(Posix::IsADirectory);
        }
        if !has_right(credential, parent, Want::Write) {
            return Some(Posix::PermissionDenied);
        }
        if !has_right(credential, directory, Want::Write) {
            return Some(Posix::PermissionDenied);
        }
        if self.is_occupied(there) {
            return Some(Posix::DirectoryNotEmpty);
        }
        if is_directory && self.goes_too_deep(node.ino, names) {
            return Some(Posix::NameTooLong);
        }
        None
    }

    /// Whether a node is another or stands below it.
    fn is_within(&self, top: u64, ino: u64) -> bool
        ensures { result ≡ is_within self.now.nodes top ino }
    {
        self.nodes.names_below(top, ino).is_some()
    }

    /// Whether a node below another has too many names, where the other has so many.
    fn goes_too_deep(&self, top: u64, names: usize) -> bool
        ensures { result ≡ goes_too_deep self.now.nodes top names }
    {
        self.nodes.some_is_too_deep(top, names)
    }

    /// Whether a directory with a child stands there.
    fn is_occupied(&self, there: &Option<Node>) -> bool
        ensures { result ≡ is_occupied self.now.nodes there.now }
    {
        match there {
            Some(node) => node.kind.is_directory() && self.has_child(node.ino),
            None => false,
        }
    }

    /// Puts a node in place of the one of its record, which has its inode number.
    fn relocate(&mut self, node: &Node)
        requires stands { IsSomeAnd (node_at self.old.nodes node.now.rec)
            (λ old. old.ino ≡ node.now.ino) }
        requires unnamed { child_of (without node.now.rec self.old.nodes)
            node.now.parent node.now.name ≡ None }
        requires whole { IsTree (placed node.now (without node.now.rec self.old.nodes))
            self.old.next }
        ensures { self.new ≡ record {
          nodes = placed node.now (without node.now.rec self.old.nodes);
          next = self.old.next;
        } }
    {
        let Some(old) = self.nodes.get(node.rec) else {
            unreachable!()
        };
        let old = *old;
        self.nodes.replace(node);
        rename_key(&mut self.index, &self.nodes, &old, node);
    }
}

/// Makes the index that of these nodes, of which one had another directory or name before.
fn rename_key(index: &mut IndexMap<Child, u32>, nodes: &Nodes, old: &Node, node: &Node)
    requires { IsRenamed index.old nodes.now old.now node.now }
    ensures { IsIndexOf (nodes_of nodes.now) index.new }
{
    if index.capacity() == index.len() {
        fill(index, nodes);
        return;
    }
    index.swap_remove(&key_of(old));
    index.insert(key_of(node), node.rec).unwrap();
}

/// Makes the index that of these nodes, for which it has room.
fn fill(index: &mut IndexMap<Child, u32>, nodes: &Nodes)
    requires records { AreAtRecords 0 nodes.now }
    requires size { length nodes.now ≡ 256 }
    requires name_once { All
        (λ node. child_of (nodes_of nodes.now) node.parent node.name ≡ Some node)
        (nodes_of nodes.now) }
    requires room { length (nodes_of nodes.now) ≤ index_map_len index.old + spare index.old }
    ensures { IsIndexOf (nodes_of nodes.now) index.new }
{
    index.clear();
    for rec in 0..RECORDS as u32 {
        let Some(node) = nodes.get(rec) else {
            continue;
        };
        index.insert(key_of(node), rec).unwrap();
    }
}

/// Where a node stands in the index.
fn key_of(node: &Node) -> Child
    ensures { result ≡ key_of node.now }
{
    Child {
        parent: node.parent,
        name: node.name,
    }
}

/// Whether the node that stands there is this one.
fn is_node_there(node: &Node, there: &Option<Node>) -> bool
    ensures { result ≡ is_node_there node.now there.now }
{
    match there {
        Some(other) => other.ino == node.ino,
        None => false,
    }
}

fn is_directory_there(there: &Option<Node>) -> bool
    ensures { result ≡ is_directory_there there.now }
{
    match there {
        Some(node) => node.kind.is_directory(),
        None => false,
    }
}

fn is_file_there(there: &Option<Node>) -> bool
    ensures { result ≡ is_file_there there.now }
{
    match there {
        Some(node) => !node.kind.is_directory(),
        None => false,
    }
}
