//! The records of the journal, each by the tree before it.
ghost use Rattle.std.specs.Prelude.{◌≡◌, ◌+◌, ◌<◌, ◌≤◌, ◌^◌, [], ◌∷◌, IfOk, OnOk, Some};
ghost use Rattle.std.specs.Prelude.{option_copied, take};
ghost use Rattle.std.specs.Str.{bytes_eq};
ghost use Rattle.std.specs.Option.{option_map_or};
ghost use Rattle.std.proofs.Math.ListN.{get_or};
ghost use Rattle.cfs_dir.specs.Namespace.{child_of, is_child, node_at};
ghost use Rattle.cfs_dir.specs.Words.{kind_word, node_in};
ghost use Rattle.cfs_image.specs.Checks.{damage_of};
ghost use Rattle.cfs_survey.specs.Changes.{create_checks, has_place, held_check, ino_of, ino_or};
ghost use Rattle.cfs_survey.specs.Changes.{joining_checks, kept_checks, last_checks, last_of};
ghost use Rattle.cfs_survey.specs.Changes.{move_checks, moved_checks, named_checks, new_checks};
ghost use Rattle.cfs_survey.specs.Changes.{node_row, node_told, number_of, other_checks};
ghost use Rattle.cfs_survey.specs.Changes.{remove_checks, replaced_checks, standing_checks};
ghost use Rattle.cfs_survey.specs.Faults.{reported};
ghost use Rattle.cfs_survey.specs.Fields.{field_checks, name_room};

use crate::children::check_empty;
use crate::fault::{Fault, ensure};
use crate::fields::read_node;
use crate::names::name_room;
use crate::places::{leads_to_root, names_directory, rec_of};
use cfs_dir::{DEEPEST, INODE_END, Kind, LONGEST_NAME, NODE_WORDS, Name, Node};

/// How many words a record has.
pub const RECORD_WORDS: usize = 16;

/// The greatest number of a node's record.
const LAST_RECORD: u64 = 255;

/// The words of a record's node.
fn node_row(words: &[u64; RECORD_WORDS]) -> [u64; NODE_WORDS]
    ensures { result ≡ node_row words.now }
{
    let mut row = [0; NODE_WORDS];
    row.copy_from_slice(&words[3..3 + NODE_WORDS]);
    row
}

/// The node of a record's number.
fn node_at(nodes: &[Node], number: u64) -> Option<&Node>
    ensures { option_copied result ≡ node_at nodes.now number }
{
    nodes.iter().find(|node| u64::from(node.rec) == number)
}

/// The inode number of a node, or 0 where there is none.
fn ino_or(node: Option<&Node>) -> u64
    ensures { result ≡ ino_or (option_copied node.entry) }
{
    match node {
        Some(node) => node.ino,
        None => 0,
    }
}

/// The word of a kind.
fn kind_word(kind: Kind) -> u64
    ensures { result ≡ kind_word kind }
{
    match kind {
        Kind::File => 1,
        Kind::Directory => 2,
    }
}

/// Checks the numbers of a node that is made.
fn check_new(at: u64, next: u64, nodes: &[Node], words: &[u64; RECORD_WORDS]) -> Result<(), Fault>
    requires { at < 2 ^ 48 }
    ensures named { reported result ≡ damage_of
        (new_checks at (record { nodes = nodes.now; next = next }) words.now) }
    ensures low { OnOk result (number_of words.now < 256) }
    ensures room { OnOk result (ino_of words.now < 2 ^ 32) }
{
    let number = words[2];
    let ino = words[3];
    ensure(number <= LAST_RECORD, at + 16, number, LAST_RECORD)?;
    let held = node_at(nodes, number);
    ensure(held.is_none(), at + 16, number, ino_or(held))?;
    ensure(next <= ino, at + 24, ino, next)?;
    ensure(ino < INODE_END, at + 24, ino, INODE_END)
}

/// The node of this directory and name.
fn child_of<'a>(nodes: &'a [Node], node: &Node) -> Option<&'a Node>
    ensures { option_copied result ≡ child_of nodes.now node.now.parent node.now.name }
{
    nodes.iter().find(|other| other.parent == node.parent && other.name == node.name)
}

/// Checks where a node goes that is none of the tree. Its words stand at this offset.
fn check_joining(at: u64, nodes: &[Node], node: &Node) -> Result<(), Fault>
    requires { at < 2 ^ 48 }
    ensures { reported result ≡ damage_of (joining_checks at nodes.now node.now) }
{
    let parent = node.parent;
    ensure(names_directory(nodes, parent), at + 8, parent, 0)?;
    let twin = child_of(nodes, node);
    ensure(twin.is_none(), at, u64::from(node.rec), rec_of(twin))?;
    ensure(
        leads_to_root(nodes, parent, DEEPEST - 1),
        at,
        node.ino,
        DEEPEST as u64,
    )
}

/// The node that a record tells.
fn read_told(at: u64, words: &[u64; RECORD_WORDS]) -> Result<Node, Fault>
    requires low { at < 2 ^ 32 }
    requires number { number_of words.now < 256 }
    ensures named { reported result ≡ damage_of (field_checks (at + 24) (node_row words.now)) }
    ensures node { IfOk result (λ node. node ≡ node_told words.now) }
{
    read_node(at + 24, words[2] as u32, &node_row(words))
}

/// The node that a record makes.
#[tactic(auto, using(crate::proofs::FirstFaults::first_faults))]
pub(crate) fn read_created(
    at: u64,
    next: u64,
    nodes: &[Node],
    words: &[u64; RECORD_WORDS],
) -> Result<Node, Fault>
    requires { at < 2 ^ 32 }
    ensures named { reported result ≡ damage_of
        (create_checks at (record { nodes = nodes.now; next = next }) words.now) }
    ensures node { IfOk result (λ node. node ≡ node_told words.now) }
    ensures room { IfOk result (λ node. node.ino < 2 ^ 32) }
{
    check_new(at, next, nodes, words)?;
    let node = read_told(at, words)?;
    check_joining(at + 24, nodes, &node)?;
    Ok(node)
}

/// Checks that a record holds a node of this inode number, which stands at this offset.
fn check_held(at: u64, held: Option<&Node>, ino: u64) -> Result<Node, Fault>
    ensures named { reported result
        ≡ damage_of (held_check at (option_copied held.entry) ino ∷ []) }
    ensures node { IfOk result (λ node. option_copied held.entry ≡ Some node) }
{
    match held {
        Some(node) => {
            ensure(node.ino == ino, at, ino, node.ino)?;
            Ok(*node)
        }
        None => Err(Fault {
            offset: at,
            found: ino,
            against: 0,
        }),
    }
}

/// The node that a record removes or moves.
fn read_standing(at: u64, nodes: &[Node], words: &[u64; RECORD_WORDS]) -> Result<Node, Fault>
    requires { at < 2 ^ 48 }
    ensures named { reported result ≡ damage_of (standing_checks at nodes.now words.now) }
    ensures node { IfOk result (λ node. node_at nodes.now (number_of words.now) ≡ Some node) }
{
    let number = words[2];
    let held = check_held(at + 24, node_at(nodes, number), words[3])?;
    ensure(number != 0, at + 16, number, 0)?;
    Ok(held)
}

/// The node that a record removes.
#[tactic(auto, using(crate::proofs::FirstFaults::first_faults))]
pub(crate) fn read_removed(
    at: u64,
    nodes: &[Node],
    words: &[u64; RECORD_WORDS],
) -> Result<Node, Fault>
    requires { at < 2 ^ 32 }
    ensures named { reported result ≡ damage_of (remove_checks at nodes.now words.now) }
    ensures node { IfOk result (λ node. node_at nodes.now (number_of words.now) ≡ Some node) }
{
    let held = read_standing(at, nodes, words)?;
    check_empty(at + 24, nodes, words[3])?;
    Ok(held)
}

/// Checks that the words of a node that is moved, which stand at this offset, keep what it had.
fn check_kept(at: u64, row: &[u64; NODE_WORDS], held: &Node) -> Result<(), Fault>
    requires { at < 2 ^ 48 }
    ensures { reported result ≡ damage_of (kept_checks at row.now held.now) }
{
    let [_, _, kind, mode, uid, gid, ..] = *row;
    let held_kind = kind_word(held.kind);
    ensure(kind == held_kind, at + 16, kind, held_kind)?;
    let held_mode = u64::from(held.mode);
    ensure(mode == held_mode, at + 24, mode, held_mode)?;
    let held_uid = u64::from(held.uid);
    ensure(uid == held_uid, at + 32, uid, held_uid)?;
    let held_gid = u64::from(held.gid);
    ensure(gid == held_gid, at + 40, gid, held_gid)
}

/// Whether a name is that of so many bytes of a room.
fn is_named(name: &Name, room: &[u8; LONGEST_NAME], len: u64) -> bool
    ensures { result ≡ bytes_eq name.now (take len room.now) }
{
    let len = len.min(LONGEST_NAME as u64) as usize;
    name.as_bytes() == &room[..len]
}

/// Whether a node stands where the words of another go.
fn is_placed(node: &Node, row: &[u64; NODE_WORDS]) -> bool
    ensures { result ≡ is_child (get_or row.now 1 0)
        (take (get_or row.now 6 0) (name_room row.now)) node.now }
{
    node.parent == row[1] && is_named(&node.name, &name_room(row), row[6])
}

/// Whether a record holds a node that stands where the words of another go.
fn has_place(held: Option<&Node>, row: &[u64; NODE_WORDS]) -> bool
    ensures { result ≡ has_place (option_copied held.entry) (get_or row.now 1 0)
        (take (get_or row.now 6 0) (name_room row.now)) }
{
    match held {
        Some(node) => is_placed(node, row),
        None => false,
    }
}

/// The same of the record with a number.
fn holds_place(nodes: &[Node], number: u64, row: &[u64; NODE_WORDS]) -> bool
    ensures { result ≡ has_place (node_at nodes.now number) (get_or row.now 1 0)
        (take (get_or row.now 6 0) (name_room row.now)) }
{
    has_place(node_at(nodes, number), row)
}

/// Checks a node that is replaced by one of this kind.
fn check_other(at: u64, nodes: &[Node], kind: u64, other: Option<&Node>) -> Result<(), Fault>
    ensures { reported result ≡ damage_of
        (option_map_or (other_checks at nodes.now kind) (option_copied other.entry) []) }
{
    let Some(other) = other else {
        return Ok(());
    };
    let other_kind = kind_word(other.kind);
    ensure(other_kind == kind, at, other_kind, kind)?;
    check_empty(at, nodes, other.ino)
}

/// The same of the record with a number.
fn check_other_at(at: u64, nodes: &[Node], kind: u64, number: u64) -> Result<(), Fault>
    ensures { reported result ≡ damage_of
        (option_map_or (other_checks at nodes.now kind) (node_at nodes.now number) []) }
{
    check_other(at, nodes, kind, node_at(nodes, number))
}

/// Checks the record that a move replaces, by its last word, which stands at this offset.
fn check_named(
    at: u64,
    nodes: &[Node],
    number: u64,
    row: &[u64; NODE_WORDS],
    last: u64,
) -> Result<(), Fault>
    requires low { number < 256 }
    requires some { 1 ≤ last }
    ensures { reported result ≡ damage_of
        (named_checks at nodes.now (node_in number row.now) (get_or row.now 2 0) last) }
{
    ensure(last != number + 1, at, last, 0)?;
    ensure(holds_place(nodes, last - 1, row), at, last, 0)?;
    check_other_at(at, nodes, row[2], last - 1)
}

/// The same, where there is one.
fn check_replaced(
    at: u64,
    nodes: &[Node],
    number: u64,
    row: &[u64; NODE_WORDS],
    last: u64,
) -> Result<(), Fault>
    requires low { number < 256 }
    ensures { reported result ≡ damage_of
        (replaced_checks at nodes.now (node_in number row.now) (get_or row.now 2 0) last) }
{
    if last == 0 {
        return Ok(());
    }
    check_named(at, nodes, number, row, last)
}

/// Checks that a record moves a node that stands, and keeps what it had.
#[tactic(auto, using(crate::proofs::FirstFaults::first_faults))]
fn check_moved(at: u64, nodes: &[Node], words: &[u64; RECORD_WORDS]) -> Result<(), Fault>
    requires { at < 2 ^ 32 }
    ensures { reported result ≡ damage_of (moved_checks at nodes.now words.now) }
{
    let held = read_standing(at, nodes, words)?;
    check_kept(at + 24, &node_row(words), &held)
}

/// Checks the last word of a record that moves a node.
fn check_last(at: u64, nodes: &[Node], words: &[u64; RECORD_WORDS]) -> Result<(), Fault>
    requires low { at < 2 ^ 32 }
    requires number { number_of words.now < 256 }
    ensures named { reported result ≡ damage_of (last_checks at nodes.now words.now) }
    ensures last { OnOk result (last_of words.now ≤ 256) }
{
    let last = words[15];
    ensure(last <= LAST_RECORD + 1, at + 120, last, LAST_RECORD + 1)?;
    check_replaced(at + 120, nodes, words[2], &node_row(words), last)
}

/// The node that a record moves, as it will stand.
#[tactic(auto, using(crate::proofs::FirstFaults::first_faults))]
pub(crate) fn read_moved(
    at: u64,
    nodes: &[Node],
    words: &[u64; RECORD_WORDS],
) -> Result<Node, Fault>
    requires { at < 2 ^ 32 }
    ensures named { reported result ≡ damage_of (move_checks at nodes.now words.now) }
    ensures node { IfOk result (λ node. node ≡ node_told words.now) }
    ensures last { OnOk result (last_of words.now ≤ 256) }
{
    let number = words[2];
    ensure(number <= LAST_RECORD, at + 16, number, LAST_RECORD)?;
    check_moved(at, nodes, words)?;
    check_last(at, nodes, words)?;
    read_told(at, words)
}
