//! A tree, record by record of the journal.
ghost use Rattle.std.specs.Prelude.{◌≡◌, ◌<◌, ◌≤◌, ◌^◌, None, IfErr, IfOk, OnOk, length, nat_lt};
ghost use Rattle.std.specs.Prelude.{not};
ghost use Rattle.std.specs.Prelude.{position};
ghost use Rattle.std.proofs.Math.ListN.{get_or, set};
ghost use Rattle.cfs_dir.specs.Change.{changed, without_replaced};
ghost use Rattle.cfs_dir.specs.Namespace.{placed, without};
ghost use Rattle.cfs_dir.specs.Words.{replaced_in};
ghost use Rattle.cfs_image.specs.Checks.{damage_of};
ghost use Rattle.std.specs.List.{position_or_len};
ghost use Rattle.cfs_journal.specs.Records.{change_of};
ghost use Rattle.cfs_survey.specs.Changes.{change_checks, create_checks, move_checks};
ghost use Rattle.cfs_survey.specs.Changes.{last_of, moving_checks, node_told, number_of};
ghost use Rattle.cfs_survey.specs.Changes.{operation_of, placed_by, remove_checks, tree_checks};
ghost use Rattle.cfs_survey.specs.Faults.{reported};
ghost use Rattle.cfs_survey.specs.Places.{place_checks};
ghost use Rattle.cfs_survey.specs.Refusals.{Refuses};

use crate::changes::{RECORD_WORDS, read_created, read_moved, read_removed};
use crate::fault::Fault;
use crate::places::check_place;
use crate::refusal::SurveyRefusal;
use cfs_dir::{Change, Node};
use std::alloc::AllocFailed;

/// A tree as far as its changes have been read, and where the words of its nodes are.
#[derive(Drop)]
pub(crate) struct TreeSoFar {
    /// By ascending record.
    pub(crate) nodes: Vec<Node>,
    /// The next inode number.
    pub(crate) next: u64,
    /// Of each record, the offset of the first word of its node.
    pub(crate) places: Vec<u32>,
}

/// The first node whose record is not below this one.
fn first_not_below(nodes: &[Node], rec: u32) -> Option<usize>
    ensures { result ≡ position (λ node. not (nat_lt node.rec rec)) nodes.now }
{
    nodes.iter().position(|node| node.rec >= rec)
}

/// The index of that node, or of the place behind the last.
fn index_for(nodes: &[Node], rec: u32) -> usize
    ensures index { result ≡ position_or_len (λ node. not (nat_lt node.rec rec)) nodes.now }
    ensures within { result ≤ length nodes.now }
{
    first_not_below(nodes, rec).unwrap_or(nodes.len())
}

/// Puts a node before the first one of a greater record.
fn put_node(nodes: &mut Vec<Node>, node: Node) -> Result<(), AllocFailed<Node>>
    ensures { OnOk result (nodes.new.items ≡ placed node nodes.old.items) }
{
    let at = index_for(nodes, node.rec);
    nodes.insert(at, node)?;
    Ok(())
}

/// Drops the node of a record.
fn drop_node(nodes: &mut Vec<Node>, rec: u32)
    ensures { nodes.new.items ≡ without rec nodes.old.items }
{
    nodes.retain(|node| node.rec != rec);
}

/// Drops the node of the record before this number, where it is not 0.
fn drop_replaced(nodes: &mut Vec<Node>, last: u64)
    requires { last ≤ 256 }
    ensures { nodes.new.items ≡ without_replaced (replaced_in last) nodes.old.items }
{
    if last != 0 {
        drop_node(nodes, last as u32 - 1);
    }
}

/// The record that a last word names, if it is not 0.
fn replaced_in(last: u64) -> Option<u32>
    requires { last ≤ 256 }
    ensures { result ≡ replaced_in last }
{
    match last {
        0 => None,
        _ => Some(last as u32 - 1),
    }
}

/// The change of a record that makes this node.
fn creation(words: &[u64; RECORD_WORDS], node: &Node) -> Change
    requires operation { operation_of words.now ≡ 1 }
    requires node { node.now ≡ node_told words.now }
    ensures { result ≡ change_of words.now }
{
    Change::Create(*node)
}

/// The change of a record that removes the node of the record `rec`.
fn removal(words: &[u64; RECORD_WORDS], rec: u32) -> Change
    requires operation { operation_of words.now ≡ 2 }
    requires number { rec ≡ number_of words.now }
    ensures { result ≡ change_of words.now }
{
    Change::Remove { rec, ino: words[3] }
}

/// The change of a record that moves a node, which will stand so.
fn relocation(words: &[u64; RECORD_WORDS], node: &Node) -> Change
    requires operation { operation_of words.now ≡ 3 }
    requires node { node.now ≡ node_told words.now }
    requires last { last_of words.now ≤ 256 }
    ensures { result ≡ change_of words.now }
{
    Change::Move {
        node: *node,
        replaced: replaced_in(words[15]),
    }
}

/// Notes where the words of a record's node begin.
fn set_place(places: &mut [u32], rec: u32, at: u32)
    ensures { places.new ≡ set places.old rec at }
{
    if (rec as usize) < places.len() {
        places[rec as usize] = at;
    }
}

/// Where the words of a record's node begin.
fn place_of(places: &[u32], rec: u32) -> u64
    ensures at { result ≡ get_or places.now rec 0 }
    ensures low { result < 2 ^ 32 }
{
    match places.get(rec as usize) {
        Some(place) => u64::from(*place),
        None => 0,
    }
}

/// Checks where a node stands, whose words are where these places say.
fn check_node(places: &[u32], nodes: &[Node], node: &Node) -> Result<(), Fault>
    ensures { reported result ≡ damage_of
        (place_checks (get_or places.now node.now.rec 0) nodes.now node.now) }
{
    check_place(place_of(places, node.rec), nodes, node)
}

/// Checks where each node stands, whose words are where these places say.
fn check_tree(places: &[u32], nodes: &[Node]) -> Result<(), Fault>
    ensures { reported result ≡ damage_of (tree_checks places.now nodes.now) }
{
    for node in nodes {
        check_node(places, nodes, node)?;
    }
    Ok(())
}

impl TreeSoFar {
    ghost use Rattle.cfs_survey.specs.SoFar.{tree_of, places_of};

    /// Makes the node of a record, whose words stand at this offset.
    fn create(&mut self, at: u32, words: &[u64; RECORD_WORDS]) -> Result<Change, SurveyRefusal>
        requires low { at < 2 ^ 31 }
        requires operation { operation_of words.now ≡ 1 }
        ensures sound { OnOk result
            (damage_of (create_checks at (tree_of self.old) words.now) ≡ None) }
        ensures tree { OnOk result
            (tree_of self.new ≡ changed (tree_of self.old) (change_of words.now)) }
        ensures places { OnOk result
            (places_of self.new ≡ placed_by at words.now (places_of self.old)) }
        ensures told { IfOk result (λ change. change ≡ change_of words.now) }
        ensures named { IfErr result (Refuses (create_checks at (tree_of self.old) words.now)) }
    {
        let node = read_created(u64::from(at), self.next, &self.nodes, words)?;
        let change = creation(words, &node);
        self.next = node.ino + 1;
        set_place(&mut self.places, node.rec, at + 24);
        put_node(&mut self.nodes, node)?;
        Ok(change)
    }

    /// Removes the node of a record, whose words stand at this offset.
    fn remove(&mut self, at: u32, words: &[u64; RECORD_WORDS]) -> Result<Change, Fault>
        requires low { at < 2 ^ 31 }
        requires operation { operation_of words.now ≡ 2 }
        ensures named { reported result ≡
            damage_of (remove_checks at (tree_of self.old).nodes words.now) }
        ensures tree { OnOk result
            (tree_of self.new ≡ changed (tree_of self.old) (change_of words.now)) }
        ensures places { OnOk result
            (places_of self.new ≡ placed_by at words.now (places_of self.old)) }
        ensures told { IfOk result (λ change. change ≡ change_of words.now) }
    {
        let held = read_removed(u64::from(at), &self.nodes, words)?;
        drop_node(&mut self.nodes, held.rec);
        Ok(removal(words, held.rec))
    }

    /// Moves the node of a record, whose words stand at this offset.
    fn relocate(&mut self, at: u32, words: &[u64; RECORD_WORDS]) -> Result<Change, SurveyRefusal>
        requires low { at < 2 ^ 31 }
        requires operation { operation_of words.now ≡ 3 }
        ensures sound { OnOk result
            (damage_of (move_checks at (tree_of self.old).nodes words.now) ≡ None) }
        ensures tree { OnOk result
            (tree_of self.new ≡ changed (tree_of self.old) (change_of words.now)) }
        ensures places { OnOk result
            (places_of self.new ≡ placed_by at words.now (places_of self.old)) }
        ensures told { IfOk result (λ change. change ≡ change_of words.now) }
        ensures named { IfErr result (Refuses (move_checks at (tree_of self.old).nodes words.now)) }
    {
        let node = read_moved(u64::from(at), &self.nodes, words)?;
        let change = relocation(words, &node);
        drop_replaced(&mut self.nodes, words[15]);
        drop_node(&mut self.nodes, node.rec);
        set_place(&mut self.places, node.rec, at + 24);
        put_node(&mut self.nodes, node)?;
        Ok(change)
    }

    /// Checks where each node stands.
    fn check(&self) -> Result<(), Fault>
        ensures { reported result ≡
            damage_of (tree_checks (places_of self.now) (tree_of self.now).nodes) }
    {
        check_tree(&self.places, &self.nodes)
    }

    /// The same, and checks the tree that it leaves.
    fn relocate_soundly(
        &mut self,
        at: u32,
        words: &[u64; RECORD_WORDS],
    ) -> Result<Change, SurveyRefusal>
        requires low { at < 2 ^ 31 }
        requires operation { operation_of words.now ≡ 3 }
        ensures sound { OnOk result
            (damage_of (moving_checks at (tree_of self.old) (places_of self.old) words.now) ≡
            None) }
        ensures tree { OnOk result
            (tree_of self.new ≡ changed (tree_of self.old) (change_of words.now)) }
        ensures places { OnOk result
            (places_of self.new ≡ placed_by at words.now (places_of self.old)) }
        ensures told { IfOk result (λ change. change ≡ change_of words.now) }
        ensures named { IfErr result
            (Refuses (moving_checks at (tree_of self.old) (places_of self.old) words.now)) }
    {
        let change = self.relocate(at, words)?;
        self.check()?;
        Ok(change)
    }

    /// Makes the change of a record, whose words stand at this offset of the image, below 2^31, and
    /// tells it.
    ///
    /// After a refusal the tree may be any.
    pub(crate) fn change(
        &mut self,
        at: u32,
        words: &[u64; RECORD_WORDS],
    ) -> Result<Change, SurveyRefusal>
        requires low { at < 2 ^ 31 }
        ensures sound { OnOk result
            (damage_of (change_checks at (tree_of self.old) (places_of self.old) words.now) ≡
            None) }
        ensures tree { OnOk result
            (tree_of self.new ≡ changed (tree_of self.old) (change_of words.now)) }
        ensures places { OnOk result
            (places_of self.new ≡ placed_by at words.now (places_of self.old)) }
        ensures told { IfOk result (λ change. change ≡ change_of words.now) }
        ensures named { IfErr result
            (Refuses (change_checks at (tree_of self.old) (places_of self.old) words.now)) }
    {
        let operation = words[1];
        if operation == 1 {
            return self.create(at, words);
        }
        if operation == 2 {
            return Ok(self.remove(at, words)?);
        }
        if operation == 3 {
            return self.relocate_soundly(at, words);
        }
        Err(SurveyRefusal::Damaged(Fault {
            offset: u64::from(at) + 8,
            found: operation,
            against: 3,
        }))
    }
}
