ghost use Rattle.std.specs.Prelude.{◌≡◌, ◌<◌, ◌≤◌, [], ◌∷◌, ℕ, IfErr, IfOk, OnOk, OnErr, Some, None, length, option_copied};
ghost use Rattle.std.specs.Option.{ForSome};
ghost use Rattle.cfs_dir.specs.Namespace.{child_of, has_child, node_at, with_node, without, without_last, without_node};
ghost use Rattle.cfs_dir.specs.Step.{IsAnswer, entered, has_right, looked_up, made, place_of, refused, removed_directory, unlinked};
ghost use Rattle.cfs_dir.specs.Table.{AreListed, IsTableOf};
ghost use Rattle.cfs_dir.specs.Path.{ArePathNames};
ghost use Rattle.cfs_dir.specs.Tree.{CanBeTakenBack, CanJoin, CanLeave, IsTree, root_of};

mod copy;
mod rename;

use crate::child::Child;
use crate::kind::Kind;
use crate::name::{LONGEST_NAME, Name};
use crate::node::Node;
use crate::nodes::Nodes;
use crate::path::{Component, Path};
use crate::place::Place;
use crate::posix::Posix;
use crate::refusal::TreeRefusal;
use crate::rules::path_refusal;
use cfs_cred::{Credential, Want, allows};
use indexmap::IndexMap;
use std::alloc::{AllocError, AllocFailed, Global};
use std::marker::Model;

/// How many records there are, and so how many nodes a tree has at most.
pub const RECORDS: usize = 256;

/// No inode number is as great, so that no number is left where it is the next.
pub const INODE_END: u64 = 4_294_967_296;

/// The files and directories of a file system, by their names.
#[derive(Debug, Drop)]
pub struct Tree {
    nodes: Nodes,
    /// The record of each node, by its directory and its name there.
    index: IndexMap<Child, u32>,
    /// The next inode number.
    next: u64,
}

impl Model for Tree {
    ghost use Rattle.cfs_dir.specs.Namespace.{Namespace};

    ghost Value = { Namespace };

    ghost use Rattle.cfs_dir.specs.Table.{IsTable, nodes_of};

    ghost view = { λ t. record { nodes = nodes_of t.nodes; next = t.next } };

    ghost invariant = { λ t. IsTable t.nodes t.index t.next };
}

impl Tree {
    /// The tree of these nodes, which stand by ascending record, and this next inode number.
    ///
    /// Without memory it gives the nodes back.
    pub fn new(alloc: Global, nodes: Vec<Node>, next: u64) -> Result<Self, AllocFailed<Vec<Node>>>
        requires { IsTree nodes.items next }
        ensures made { IfOk result (λ tree. tree ≡ record { nodes = nodes.items; next = next }) }
        ensures given_back { IfErr result (λ failed. failed.value ≡ nodes) }
    {
        match table_of(alloc, &nodes) {
            Ok((nodes, index)) => Ok(Tree { nodes, index, next }),
            Err(_) => Err(AllocFailed { value: nodes }),
        }
    }

    /// The tree of a new file system, which has a root alone.
    pub fn with_root(alloc: Global, mode: u16, uid: u32, gid: u32) -> Result<Self, AllocError>
        requires { mode ≤ 511 }
        ensures { IfOk result (λ tree.
            tree ≡ record { nodes = root_of mode uid gid ∷ []; next = 2 }) }
    {
        let root = Node {
            ino: 1,
            parent: 1,
            name: Name::empty(),
            kind: Kind::Directory,
            mode,
            uid,
            gid,
            rec: 0,
        };
        let nodes = vec![in alloc; root]?;
        Ok(Tree::new(alloc, nodes, 2)?)
    }

    /// The node that keeps a record; none exactly where no node does.
    pub fn node(&self, rec: u32) -> Option<&Node>
        ensures { option_copied result ≡ node_at self.now.nodes rec }
    {
        self.nodes.get(rec)
    }

    /// The inode number of the next node that is made: 2 to 4,294,967,296, where the last means
    /// that there is no number left.
    pub fn next(&self) -> u64
        ensures next { result ≡ self.now.next }
        ensures whole { IsTree self.now.nodes self.now.next }
    {
        self.next
    }

    /// The node at a path.
    ///
    /// Refused as every call: a name `.` or `..` with InvalidArgument, a name of more than 40 bytes
    /// or more than 16 names with NameTooLong; then, from the root on, a directory without the
    /// right to search with PermissionDenied, a name that is not there with NotFound, and a file in
    /// the middle of the path with NotADirectory. (POSIX.1-2017, Base Definitions, section 4.13;
    /// that the names `.` and `..` are refused, and the bounds, are own.)
    pub fn lookup(&self, credential: Credential, path: &Path) -> Result<Node, TreeRefusal>
        ensures { result ≡ refused (looked_up self.now credential path.now) }
    {
        match self.place(credential, path)? {
            Place::Root(root) => Ok(root),
            Place::Entry(_, _, Some(node)) => Ok(node),
            Place::Entry(_, _, None) => Err(TreeRefusal::Refused(Posix::NotFound)),
        }
    }

    /// Makes a file at a path, in the given record, with the next inode number.
    ///
    /// After the refusals of a path: AlreadyExists where the name is there, PermissionDenied
    /// without the right to write its directory, TooManyFiles without a record or an inode number.
    /// A call that is refused, or has no memory, changes nothing.
    pub fn create(
        &mut self,
        credential: Credential,
        path: &Path,
        mode: u16,
        rec: Option<u32>,
    ) -> Result<Node, TreeRefusal>
        requires permissions { mode ≤ 511 }
        requires free { ForSome rec (λ rec. (rec < 256) × (node_at self.old.nodes rec ≡ None)) }
        ensures answer { IsAnswer (made self.old credential path.now Kind.File mode rec) result }
        ensures made { IfOk result (λ node. self.new ≡ with_node self.old node) }
        ensures unchanged { OnErr result (self.new ≡ self.old) }
    {
        self.make(Kind::File, credential, path, mode, rec)
    }

    /// Makes a directory at a path, as `create` makes a file.
    pub fn mkdir(
        &mut self,
        credential: Credential,
        path: &Path,
        mode: u16,
        rec: Option<u32>,
    ) -> Result<Node, TreeRefusal>
        requires permissions { mode ≤ 511 }
        requires free { ForSome rec (λ rec. (rec < 256) × (node_at self.old.nodes rec ≡ None)) }
        ensures answer { IsAnswer
            (made self.old credential path.now Kind.Directory mode rec) result }
        ensures made { IfOk result (λ node. self.new ≡ with_node self.old node) }
        ensures unchanged { OnErr result (self.new ≡ self.old) }
    {
        self.make(Kind::Directory, credential, path, mode, rec)
    }

    /// Removes the name of a file, and gives the node that had it.
    ///
    /// After the refusals of a path: NotFound, IsADirectory, and PermissionDenied without the right
    /// to write its directory. A refusal changes nothing.
    pub fn unlink(&mut self, credential: Credential, path: &Path) -> Result<Node, TreeRefusal>
        ensures answer { result ≡ refused (unlinked self.old credential path.now) }
        ensures removed { IfOk result (λ node. self.new ≡ without_node self.old node) }
        ensures unchanged { OnErr result (self.new ≡ self.old) }
    {
        let file = self.file_to_unlink(credential, path)?;
        self.remove(&file);
        Ok(file)
    }

    /// Removes an empty directory, and gives its node.
    ///
    /// The root with InvalidArgument; after the refusals of a path: NotFound, NotADirectory,
    /// PermissionDenied without the right to write its directory, and DirectoryNotEmpty. A refusal
    /// changes nothing.
    pub fn rmdir(&mut self, credential: Credential, path: &Path) -> Result<Node, TreeRefusal>
        ensures answer { result ≡ refused (removed_directory self.old credential path.now) }
        ensures removed { IfOk result (λ node. self.new ≡ without_node self.old node) }
        ensures unchanged { OnErr result (self.new ≡ self.old) }
    {
        let directory = self.directory_to_remove(credential, path)?;
        self.remove(&directory);
        Ok(directory)
    }

    /// The root, which stands at the first record.
    fn root(&self) -> &Node
        ensures first { node_at self.now.nodes 0 ≡ Some result.now }
        ensures whole { IsTree self.now.nodes self.now.next }
    {
        match self.nodes.get(0) {
            Some(root) => root,
            None => unreachable!(),
        }
    }

    /// The node of this name in a directory.
    fn child(&self, parent: u64, name: Name) -> Option<&Node>
        ensures { option_copied result ≡ child_of self.now.nodes parent name }
    {
        let child = Child { parent, name };
        let rec = *self.index.get(&child)?;
        self.nodes.get(rec)
    }

    /// The directory of this name in a directory.
    fn enter(
        &self,
        credential: Credential,
        directory: &Node,
        name: &Component,
    ) -> Result<Node, Posix>
        requires { length name.now ≤ LONGEST_NAME }
        ensures { result ≡ entered self.now.nodes credential directory.now name.now }
    {
        if !has_right(credential, directory, Want::Search) {
            return Err(Posix::PermissionDenied);
        }
        let name = Name::of(name.as_bytes());
        match self.child(directory.ino, name) {
            Some(node) if node.kind.is_directory() => Ok(*node),
            Some(_) => Err(Posix::NotADirectory),
            None => Err(Posix::NotFound),
        }
    }

    /// Where a path leads to.
    fn place(&self, credential: Credential, path: &Path) -> Result<Place, Posix>
        ensures place { result ≡ place_of self.now.nodes credential path.now }
        ensures whole { IsTree self.now.nodes self.now.next }
        ensures readable { ArePathNames path.now }
    {
        let root = *self.root();
        let names = path.names();
        if let Some(refusal) = path_refusal(names) {
            return Err(refusal);
        }
        let Some((last, directories)) = names.split_last() else {
            return Ok(Place::Root(root));
        };
        let mut directory = root;
        for name in directories {
            directory = self.enter(credential, &directory, name)?;
        }
        if !has_right(credential, &directory, Want::Search) {
            return Err(Posix::PermissionDenied);
        }
        let name = Name::of(last.as_bytes());
        let node = self.child(directory.ino, name).copied();
        Ok(Place::Entry(directory, name, node))
    }

    /// Makes a node at a path.
    fn make(
        &mut self,
        kind: Kind,
        credential: Credential,
        path: &Path,
        mode: u16,
        rec: Option<u32>,
    ) -> Result<Node, TreeRefusal>
        requires permissions { mode ≤ 511 }
        requires free { ForSome rec (λ rec. (rec < 256) × (node_at self.old.nodes rec ≡ None)) }
        ensures answer { IsAnswer (made self.old credential path.now kind mode rec) result }
        ensures made { IfOk result (λ node. self.new ≡ with_node self.old node) }
        ensures unchanged { OnErr result (self.new ≡ self.old) }
    {
        let node = self.node_to_make(kind, credential, path, mode, rec)?;
        match self.insert(&node) {
            Ok(()) => Ok(node),
            Err(_) => Err(TreeRefusal::NoMemory),
        }
    }

    /// The node that `create` or `mkdir` would make at a path, by what it is; nothing is changed.
    /// It is `insert` that adds it.
    pub fn node_to_make(
        &self,
        kind: Kind,
        credential: Credential,
        path: &Path,
        mode: u16,
        rec: Option<u32>,
    ) -> Result<Node, Posix>
        requires permissions { mode ≤ 511 }
        requires free { ForSome rec (λ rec. (rec < 256) × (node_at self.now.nodes rec ≡ None)) }
        ensures answer { result ≡ made self.now credential path.now kind mode rec }
        ensures joins { IfOk result (CanJoin self.now) }
    {
        let Place::Entry(directory, name, None) = self.place(credential, path)? else {
            return Err(Posix::AlreadyExists);
        };
        if !has_right(credential, &directory, Want::Write) {
            return Err(Posix::PermissionDenied);
        }
        let Some(rec) = rec else {
            return Err(Posix::TooManyFiles);
        };
        if self.next >= INODE_END {
            return Err(Posix::TooManyFiles);
        }
        let Credential { uid, gid } = credential;
        Ok(Node {
            ino: self.next,
            parent: directory.ino,
            name,
            kind,
            mode,
            uid,
            gid,
            rec,
        })
    }

    /// The node that `unlink` would remove; nothing is changed. It is `remove` that removes it.
    pub fn file_to_unlink(&self, credential: Credential, path: &Path) -> Result<Node, Posix>
        ensures answer { result ≡ unlinked self.now credential path.now }
        ensures leaves { IfOk result (CanLeave self.now) }
    {
        let Place::Entry(directory, _, node) = self.place(credential, path)? else {
            return Err(Posix::IsADirectory);
        };
        let Some(file) = node else {
            return Err(Posix::NotFound);
        };
        if file.kind.is_directory() {
            return Err(Posix::IsADirectory);
        }
        if !has_right(credential, &directory, Want::Write) {
            return Err(Posix::PermissionDenied);
        }
        Ok(file)
    }

    /// The node that `rmdir` would remove; nothing is changed. It is `remove` that removes it.
    pub fn directory_to_remove(&self, credential: Credential, path: &Path) -> Result<Node, Posix>
        ensures answer { result ≡ removed_directory self.now credential path.now }
        ensures leaves { IfOk result (CanLeave self.now) }
    {
        let Place::Entry(parent, _, node) = self.place(credential, path)? else {
            return Err(Posix::InvalidArgument);
        };
        let Some(directory) = node else {
            return Err(Posix::NotFound);
        };
        if !directory.kind.is_directory() {
            return Err(Posix::NotADirectory);
        }
        if !has_right(credential, &parent, Want::Write) {
            return Err(Posix::PermissionDenied);
        }
        if self.has_child(directory.ino) {
            return Err(Posix::DirectoryNotEmpty);
        }
        Ok(directory)
    }

    /// Whether a node stands in a directory.
    fn has_child(&self, parent: u64) -> bool
        ensures { result ≡ has_child self.now.nodes parent }
    {
        self.nodes.some_stands_in(parent)
    }

    /// Adds a node, which uses the next inode number up. Without memory nothing is changed.
    pub fn insert(&mut self, node: &Node) -> Result<(), AllocError>
        requires { CanJoin self.old node.now }
        ensures added { OnOk result (self.new ≡ with_node self.old node.now) }
        ensures undoable { OnOk result (CanBeTakenBack self.new node.now) }
        ensures undone { OnOk result (without_last self.new node.now ≡ self.old) }
        ensures unchanged { OnErr result (self.new ≡ self.old) }
    {
        let child = Child {
            parent: node.parent,
            name: node.name,
        };
        self.index.reserve(1)?;
        self.nodes.put(node)?;
        self.index.insert(child, node.rec).unwrap();
        self.next += 1;
        Ok(())
    }

    /// Removes a node. It takes no memory.
    pub fn remove(&mut self, node: &Node)
        requires { CanLeave self.old node.now }
        ensures { self.new ≡ without_node self.old node.now }
    {
        let next = self.next;
        self.take_out(node, next);
    }

    /// Takes the last `insert` back, which was of this node. It takes no memory.
    pub fn take_back(&mut self, node: &Node)
        requires { CanBeTakenBack self.old node.now }
        ensures { self.new ≡ without_last self.old node.now }
    {
        self.take_out(node, node.ino);
    }

    /// Removes a node, and sets the next inode number.
    fn take_out(&mut self, node: &Node, next: u64)
        requires stands { node_at self.old.nodes node.now.rec ≡ Some node.now }
        requires whole { IsTree (without node.now.rec self.old.nodes) next }
        ensures { self.new ≡ record { nodes = without node.now.rec self.old.nodes; next = next } }
    {
        let child = Child {
            parent: node.parent,
            name: node.name,
        };
        self.index.swap_remove(&child);
        self.nodes.take(node.rec);
        self.next = next;
    }
}

/// The nodes by their numbers and records, and the index of their names.
fn table_of(alloc: Global, nodes: &[Node]) -> Result<(Nodes, IndexMap<Child, u32>), AllocError>
    requires { AreListed nodes.now }
    ensures { IfOk result (λ table. IsTableOf table.0 table.1 nodes.now) }
{
    let mut table = Nodes::new(alloc)?;
    let mut index = IndexMap::new(alloc);
    for node in nodes {
        let child = Child {
            parent: node.parent,
            name: node.name,
        };
        index.insert(child, node.rec)?;
        table.put(node)?;
    }
    Ok((table, index))
}

/// Whether a user has a right on a node.
fn has_right(credential: Credential, node: &Node, want: Want) -> bool
    ensures { result ≡ has_right credential node.now want }
{
    allows(node.mode, node.uid, node.gid, credential, want)
}
