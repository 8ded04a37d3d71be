//! A table of the tree's nodes.
ghost use Rattle.std.specs.Prelude.{All, ◌≡◌, ◌<◌, ◌^◌, ◌++◌, [], ◌∷◌, IfErr, IfOk, OnOk, None, drop, length, option_to_list};
ghost use Rattle.std.proofs.Math.ListN.{get_or};
ghost use Rattle.cfs_dir.specs.Tree.{IsTree};
ghost use Rattle.cfs_dir.specs.Words.{node_in, table_in};
ghost use Rattle.cfs_image.specs.Checks.{damage_of};
ghost use Rattle.cfs_survey.specs.Faults.{reported};
ghost use Rattle.cfs_survey.specs.Fields.{root_checks};
ghost use Rattle.cfs_survey.specs.Refusals.{Refuses};
ghost use Rattle.cfs_survey.specs.Tables.{next_checks, nodes_below, number_checks, record_checks, records_checks, row, row_at, standing, table_checks};

use crate::fault::{Fault, ensure};
use crate::fields::{read_node, read_root};
use crate::places::{check_places, node_of, rec_of, row_at};
use crate::refusal::SurveyRefusal;
use cfs_dir::{INODE_END, NODE_WORDS, Node, RECORDS};
use std::alloc::{AllocFailed, Global};

/// The words of a record.
fn row(words: &[u64], rec: u32) -> [u64; NODE_WORDS]
    requires size { length words.now ≡ 3073 }
    requires rec { rec < 256 }
    ensures { result ≡ row words.now rec }
{
    let from = 1 + NODE_WORDS * rec as usize;
    let mut row = [0; NODE_WORDS];
    row.copy_from_slice(&words[from..from + NODE_WORDS]);
    row
}

/// Checks the next inode number, which stands at this offset.
#[tactic(auto, unfolding(crate::specs::Tables::next_checks))]
fn check_next(at: u64, next: u64) -> Result<(), Fault>
    ensures { reported result ≡ damage_of (next_checks at next) }
{
    ensure(2 <= next, at, next, 2)?;
    ensure(next <= INODE_END, at, next, INODE_END)
}

/// Checks the inode number that stands at this offset, against the next one and the nodes of the
/// lower records.
fn check_number(at: u64, ino: u64, next: u64, lower: &[Node]) -> Result<(), Fault>
    ensures { reported result ≡ damage_of (number_checks at ino next lower.now) }
{
    ensure(ino < next, at, ino, next)?;
    let other = node_of(lower, ino);
    ensure(other.is_none(), at, ino, rec_of(other))
}

/// The root. The table begins at this offset.
fn read_first(at: u64, words: &[u64]) -> Result<Node, Fault>
    requires low { at < 2 ^ 32 }
    requires size { length words.now ≡ 3073 }
    ensures named { reported result ≡
        damage_of (root_checks (row_at at 0) (row words.now 0)) }
    ensures node { IfOk result (λ node. node ≡ node_in 0 (row words.now 0)) }
    ensures root { IfOk result (λ node. node.ino ≡ 1) }
{
    read_root(row_at(at, 0), &row(words, 0))
}

/// The node of a record that is not the root's, where one stands there; `lower` are the nodes of
/// the records below. The table begins at this offset.
fn read_record(at: u64, words: &[u64], rec: u32, lower: &[Node]) -> Result<Option<Node>, Fault>
    requires low { at < 2 ^ 32 }
    requires size { length words.now ≡ 3073 }
    requires rec { rec < 256 }
    requires lower { lower.now ≡ nodes_below words.now rec }
    ensures named { reported result ≡ damage_of (record_checks at words.now rec) }
    ensures node { IfOk result (λ node.
        option_to_list node ≡ standing rec (row words.now rec)) }
{
    let row = row(words, rec);
    if row[0] == 0 {
        return Ok(None);
    }
    let at = row_at(at, rec);
    check_number(at, row[0], words[0], lower)?;
    let node = read_node(at, rec, &row)?;
    Ok(Some(node))
}

/// Adds a node, where there is one.
fn push_some(nodes: &mut Vec<Node>, node: Option<Node>) -> Result<(), AllocFailed<Node>>
    ensures { OnOk result (nodes.new.items ≡ nodes.old.items ++ option_to_list node) }
{
    match node {
        Some(node) => nodes.push(node),
        None => Ok(()),
    }
}

/// The nodes of all records, ascending. The table begins at this offset.
fn read_records(alloc: Global, at: u64, words: &[u64]) -> Result<Vec<Node>, SurveyRefusal>
    requires low { at < 2 ^ 32 }
    requires size { length words.now ≡ 3073 }
    ensures sound { OnOk result (damage_of (records_checks at words.now) ≡ None) }
    ensures nodes { IfOk result (λ nodes. nodes.items ≡ (table_in words.now).nodes) }
    ensures named { IfErr result (Refuses (records_checks at words.now)) }
{
    let mut nodes = Vec::with_capacity(alloc, RECORDS)?;
    nodes.push(read_first(at, words)?)?;
    for rec in 1..RECORDS as u32 {
        let node = read_record(at, words, rec, &nodes)?;
        push_some(&mut nodes, node)?;
    }
    Ok(nodes)
}

/// The nodes of a table, by ascending record, which are a tree. It has 3073 words, which begin at
/// this offset of an image, below 2^32.
///
/// `Damaged` names the first check that fails: of the next inode number, of each record by itself,
/// and then of where each node stands.
pub fn read_table(alloc: Global, at: u64, words: &[u64]) -> Result<Vec<Node>, SurveyRefusal>
    requires low { at < 2 ^ 32 }
    requires size { length words.now ≡ 3073 }
    ensures sound { OnOk result (damage_of (table_checks at words.now) ≡ None) }
    ensures nodes { IfOk result (λ nodes. nodes.items ≡ (table_in words.now).nodes) }
    ensures tree { IfOk result (λ nodes. IsTree nodes.items (get_or words.now 0 0)) }
    ensures records { IfOk result (λ nodes. All (λ node. node.rec < 256) nodes.items) }
    ensures named { IfErr result (Refuses (table_checks at words.now)) }
{
    check_next(at, words[0])?;
    let nodes = read_records(alloc, at, words)?;
    check_places(at, &nodes)?;
    Ok(nodes)
}
