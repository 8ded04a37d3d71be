ghost use Rattle.std.specs.Prelude.{◌≡◌, ◌<◌, None, Some, IfOk, IsSomeAnd, OnErr, OnOk, nat_eq, option_copied, replicate, set, slice_get};
ghost use Rattle.std.specs.HashMap.{get};
ghost use Rattle.std.specs.List.{list_any};
ghost use Rattle.std.specs.Option.{option_and_then};
ghost use Rattle.cfs_dir.specs.Namespace.{node_of};
ghost use Rattle.cfs_dir.specs.Numbered.{slot_of};
ghost use Rattle.cfs_dir.specs.Rename.{names_below, node_is_too_deep};
ghost use Rattle.cfs_dir.specs.Table.{holds, nodes_of, stands_in};

use crate::node::Node;
use crate::rules::DEEPEST;
use crate::tree::RECORDS;
use indexmap::IndexMap;
use std::alloc::{AllocError, Global};
use std::marker::Model;

/// The nodes of a tree by their inode numbers, seen as the node of each record.
#[derive(Debug, Drop)]
pub(crate) struct Nodes {
    by_number: IndexMap<u64, Node>,
    /// The inode number of the node of each record.
    numbers: Vec<Option<u64>>,
}

impl Model for Nodes {
    ghost use Rattle.std.specs.Prelude.{List, Option};
    ghost use Rattle.cfs_dir.specs.declared.node.Node.{Node as OneNode};
    ghost use Rattle.cfs_dir.specs.Numbered.{IsNumbered, slots_of};

    ghost Value = { List (Option OneNode) };

    ghost view = { λ n. slots_of n.by_number n.numbers.items };

    ghost invariant = { λ n. IsNumbered n.by_number n.numbers.items };
}

impl Nodes {
    /// No node at any record.
    pub(crate) fn new(alloc: Global) -> Result<Self, AllocError>
        ensures { IfOk result (λ nodes. nodes ≡ replicate 256 None) }
    {
        Ok(Nodes {
            by_number: IndexMap::with_capacity(alloc, RECORDS)?,
            numbers: vec![in alloc; None; RECORDS]?,
        })
    }

    /// The node of a record.
    pub(crate) fn get(&self, rec: u32) -> Option<&Node>
        ensures { option_copied result ≡ option_and_then (λ slot. slot) (slice_get self.now rec) }
    {
        let number = (*self.numbers.get(rec as usize)?)?;
        self.by_number.get(&number)
    }

    /// Puts a node at its record. Without memory nothing is changed.
    pub(crate) fn put(&mut self, node: &Node) -> Result<(), AllocError>
        requires within { node.now.rec < 256 }
        requires free { option_and_then (λ slot. slot) (slice_get self.old node.now.rec) ≡ None }
        requires unused { node_of (nodes_of self.old) node.now.ino ≡ None }
        ensures put { OnOk result (self.new ≡ set self.old node.now.rec (Some node.now)) }
        ensures unchanged { OnErr result (self.new ≡ self.old) }
    {
        self.by_number.insert(node.ino, *node)?;
        self.numbers[node.rec as usize] = Some(node.ino);
        Ok(())
    }

    /// Takes the node of a record out. It takes no memory.
    pub(crate) fn take(&mut self, rec: u32)
        requires { rec < 256 }
        ensures { self.new ≡ set self.old rec None }
    {
        let number = self.numbers[rec as usize];
        self.numbers[rec as usize] = None;
        if let Some(number) = number {
            self.by_number.swap_remove(&number);
        }
    }

    /// Puts a node in place of the one of its record, which has its inode number. It
    /// takes no memory.
    pub(crate) fn replace(&mut self, node: &Node)
        requires { IsSomeAnd (option_and_then (λ slot. slot) (slice_get self.old node.now.rec))
            (λ old. old.ino ≡ node.now.ino) }
        ensures { self.new ≡ set self.old node.now.rec (Some node.now) }
    {
        self.by_number.insert(node.ino, *node).unwrap();
    }

    /// By how many names a node stands below another, both by their inode numbers; none where it
    /// does not by 16 names.
    pub(crate) fn names_below(&self, top: u64, ino: u64) -> Option<usize>
        ensures { result ≡ names_below DEEPEST (node_of (nodes_of self.now)) top ino }
    {
        names_below(&self.by_number, top, ino)
    }

    /// Whether a node below another has more than 16 names, where the other has so many.
    pub(crate) fn some_is_too_deep(&self, top: u64, names: usize) -> bool
        ensures { result ≡
            list_any (holds (node_is_too_deep (node_of (nodes_of self.now)) top names)) self.now }
    {
        some_is_too_deep(&self.by_number, &self.numbers, top, names)
    }

    /// Whether some node stands in a directory.
    pub(crate) fn some_stands_in(&self, parent: u64) -> bool
        ensures { result ≡ list_any (stands_in parent) self.now }
    {
        some_stands_in(&self.by_number, &self.numbers, parent)
    }
}

/// Whether the node of some record stands in a directory.
fn some_stands_in(by_number: &IndexMap<u64, Node>, numbers: &[Option<u64>], parent: u64) -> bool
    ensures { result ≡
        list_any (λ number. stands_in parent (slot_of by_number.now number)) numbers.now }
{
    numbers
        .iter()
        .any(|number| stands_in(by_number, *number, parent))
}

/// Whether the node of this inode number stands in a directory.
fn stands_in(by_number: &IndexMap<u64, Node>, number: Option<u64>, parent: u64) -> bool
    ensures { result ≡ stands_in parent (slot_of by_number.now number) }
{
    let Some(number) = number else {
        return false;
    };
    match by_number.get(&number) {
        Some(node) => node.parent == parent,
        None => false,
    }
}

/// By how many names a node stands below another.
fn names_below(by_number: &IndexMap<u64, Node>, top: u64, ino: u64) -> Option<usize>
    ensures { result ≡ names_below DEEPEST (get nat_eq by_number.now) top ino }
{
    let mut above = ino;
    for names in 0..DEEPEST {
        if above == top {
            return Some(names);
        }
        above = by_number.get(&above)?.parent;
    }
    if above == top { Some(DEEPEST) } else { None }
}

/// Whether the node of some record below another has more than 16 names.
fn some_is_too_deep(
    by_number: &IndexMap<u64, Node>,
    numbers: &[Option<u64>],
    top: u64,
    names: usize,
) -> bool
    ensures { result ≡ list_any (λ number.
        holds (node_is_too_deep (get nat_eq by_number.now) top names)
        (slot_of by_number.now number)) numbers.now }
{
    numbers
        .iter()
        .any(|number| is_too_deep(by_number, *number, top, names))
}

/// Whether the node of this inode number has more than 16 names.
fn is_too_deep(by_number: &IndexMap<u64, Node>, number: Option<u64>, top: u64, names: usize) -> bool
    ensures { result ≡ holds (node_is_too_deep (get nat_eq by_number.now) top names)
        (slot_of by_number.now number) }
{
    let Some(number) = number else {
        return false;
    };
    let Some(node) = by_number.get(&number) else {
        return false;
    };
    match names_below(by_number, top, node.ino) {
        Some(below) => below > DEEPEST.saturating_sub(names),
        None => false,
    }
}
