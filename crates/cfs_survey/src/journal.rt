//! The records of the journal.
ghost use Rattle.std.specs.Prelude.{◌≡◌, ◌+◌, ◌-◌, ◌%◌, ◌==◌, ◌||◌, ◌<◌, ◌≤◌, ◌^◌, [], ◌∷◌, IfErr};
ghost use Rattle.std.specs.Prelude.{IfOk, None, OnOk, length};
ghost use Rattle.std.proofs.Math.ListN.{get_or};
ghost use Rattle.cfs_dir.specs.Change.{changed, changed_by};
ghost use Rattle.cfs_image.specs.Checks.{damage_of};
ghost use Rattle.cfs_journal.specs.Records.{change_of};
ghost use Rattle.cfs_journal.specs.Standing.{changes_above, walk};
ghost use Rattle.cfs_survey.specs.Changes.{change_checks, placed_by};
ghost use Rattle.cfs_survey.specs.Faults.{checks_from, reported};
ghost use Rattle.cfs_survey.specs.Journals.{bound_checks, changes_checks, gates_checks, home_check};
ghost use Rattle.cfs_survey.specs.Journals.{home_checks, journal_checks, last_reached};
ghost use Rattle.cfs_survey.specs.Journals.{places_after, reached, record_at, table_places};
ghost use Rattle.cfs_survey.specs.Journals.{tree_after};
ghost use Rattle.cfs_survey.specs.Refusals.{Refuses};
ghost use Rattle.cfs_survey.specs.SoFar.{places_of, tree_of};
ghost use Rattle.cfs_survey.specs.Tables.{row_at};

use crate::changes::RECORD_WORDS;
use crate::fault::{Fault, ensure};
use crate::places::row_at;
use crate::recovered::Recovered;
use crate::refusal::SurveyRefusal;
use crate::tree_so_far::TreeSoFar;
use cfs_dir::{Change, Node, RECORDS};
use cfs_journal::PLACES;
use std::alloc::{AllocError, Global};

/// Whether the record behind a number stands at its position.
fn is_reached(journal: &[[u64; RECORD_WORDS]], through: u64) -> bool
    requires places { length journal.now ≡ 64 }
    requires low { through + 1 < 2 ^ 64 }
    ensures { result ≡ (get_or (get_or journal.now (through % 64) []) 0 0 == through + 1) }
{
    let position = (through % PLACES as u64) as usize;
    journal[position][0] == through + 1
}

/// How many records are reached behind a number, if they are so many at most.
fn count_reached(journal: &[[u64; RECORD_WORDS]], through: u64, most: u32) -> u64
    requires places { length journal.now ≡ 64 }
    requires low { through + most < 2 ^ 64 }
    ensures count { result ≡ length (walk most through journal.now) }
    ensures few { result ≤ most }
{
    if most == 0 {
        return 0;
    }
    if is_reached(journal, through) {
        return 1 + count_reached(journal, through + 1, most - 1);
    }
    0
}

/// Where the record at a position begins.
fn record_at(at: u32, position: u32) -> u32
    requires low { at < 2 ^ 30 }
    requires position { position < 64 }
    ensures at { result ≡ record_at at position }
    ensures low { result < 2 ^ 31 }
{
    at + 128 * position
}

/// Checks that the gate at a position is not above the last record reached.
fn check_bound(
    at: u32,
    journal: &[[u64; RECORD_WORDS]],
    last: u64,
    position: u32,
) -> Result<(), Fault>
    requires places { length journal.now ≡ 64 }
    requires low { at < 2 ^ 30 }
    requires position { position < 64 }
    ensures { reported result ≡ damage_of (bound_checks at journal.now last position) }
{
    let gate = journal[position as usize][0];
    ensure(gate <= last, u64::from(record_at(at, position)), gate, last)
}

/// The position where a gate belongs.
fn home_of(gate: u64) -> u64
    ensures { result ≡ (gate - 1) % 64 }
{
    gate.saturating_sub(1) % PLACES as u64
}

/// Whether no gate stands at a position but one that belongs there.
fn is_home(gate: u64, position: u32) -> bool
    ensures { result ≡ ((gate == 0) || ((gate - 1) % 64 == position)) }
{
    gate == 0 || home_of(gate) == u64::from(position)
}

/// Checks that the gate at a position belongs there.
fn check_home(at: u32, journal: &[[u64; RECORD_WORDS]], position: u32) -> Result<(), Fault>
    requires places { length journal.now ≡ 64 }
    requires low { at < 2 ^ 30 }
    requires position { position < 64 }
    ensures { reported result ≡ damage_of (home_checks at journal.now position) }
{
    let gate = journal[position as usize][0];
    ensure(
        is_home(gate, position),
        u64::from(record_at(at, position)),
        gate,
        home_of(gate),
    )
}

/// Checks that no gate is above the last record reached.
fn check_bounds(at: u32, journal: &[[u64; RECORD_WORDS]], last: u64) -> Result<(), Fault>
    requires places { length journal.now ≡ 64 }
    requires low { at < 2 ^ 30 }
    ensures { reported result ≡ damage_of (checks_from (bound_checks at journal.now last) 0 64) }
{
    for position in 0..PLACES as u32 {
        check_bound(at, journal, last, position)?;
    }
    Ok(())
}

/// Checks that each gate belongs to its position.
fn check_homes(at: u32, journal: &[[u64; RECORD_WORDS]]) -> Result<(), Fault>
    requires places { length journal.now ≡ 64 }
    requires low { at < 2 ^ 30 }
    ensures { reported result ≡ damage_of (checks_from (home_checks at journal.now) 0 64) }
{
    for position in 0..PLACES as u32 {
        check_home(at, journal, position)?;
    }
    Ok(())
}

/// Checks all gates.
#[tactic(auto, using(crate::proofs::FirstFaults::first_faults), unfolding(crate::specs::Journals::gates_checks))]
fn check_gates(at: u32, journal: &[[u64; RECORD_WORDS]], last: u64) -> Result<(), Fault>
    requires places { length journal.now ≡ 64 }
    requires low { at < 2 ^ 30 }
    ensures { reported result ≡ damage_of (gates_checks at journal.now last) }
{
    check_bounds(at, journal, last)?;
    check_homes(at, journal)
}

/// Where the words of a node begin in a table that begins at this offset.
fn place_in_table(table_at: u32, rec: u32) -> u32
    requires low { table_at < 2 ^ 30 }
    requires rec { rec < 256 }
    ensures { result ≡ row_at table_at rec }
{
    row_at(u64::from(table_at), rec) as u32
}

/// Where the words of each node begin in a table that begins at this offset.
fn table_places(alloc: Global, table_at: u32) -> Result<Vec<u32>, AllocError>
    requires { table_at < 2 ^ 30 }
    ensures { IfOk result (λ places. places.items ≡ table_places table_at) }
{
    let mut places = Vec::with_capacity(alloc, RECORDS)?;
    for rec in 0..RECORDS as u32 {
        places.push(place_in_table(table_at, rec))?;
    }
    Ok(places)
}

/// The words of the record that stands behind a number.
fn record_of(journal: &[[u64; RECORD_WORDS]], number: u64) -> [u64; RECORD_WORDS]
    requires places { length journal.now ≡ 64 }
    ensures { result ≡ get_or journal.now (number % 64) [] }
{
    journal[(number % PLACES as u64) as usize]
}

/// Where that record begins.
fn offset_of(at: u32, number: u64) -> u32
    requires low { at < 2 ^ 30 }
    ensures at { result ≡ record_at at (number % 64) }
    ensures low { result < 2 ^ 31 }
{
    record_at(at, (number % PLACES as u64) as u32)
}

/// Makes the change of that record, and tells it.
fn change_tree(
    tree: &mut TreeSoFar,
    at: u32,
    journal: &[[u64; RECORD_WORDS]],
    number: u64,
) -> Result<Change, SurveyRefusal>
    requires places { length journal.now ≡ 64 }
    requires low { at < 2 ^ 30 }
    ensures sound { OnOk result (damage_of (change_checks (record_at at (number % 64))
        (tree_of tree.old) (places_of tree.old) (get_or journal.now (number % 64) [])) ≡ None) }
    ensures tree { OnOk result (tree_of tree.new ≡
        changed (tree_of tree.old) (change_of (get_or journal.now (number % 64) []))) }
    ensures offsets { OnOk result (places_of tree.new ≡
        placed_by (record_at at (number % 64)) (get_or journal.now (number % 64) [])
        (places_of tree.old)) }
    ensures told { IfOk result (λ change.
        change ≡ change_of (get_or journal.now (number % 64) [])) }
    ensures named { IfErr result (Refuses (change_checks (record_at at (number % 64))
        (tree_of tree.old) (places_of tree.old) (get_or journal.now (number % 64) []))) }
{
    let words = record_of(journal, number);
    tree.change(offset_of(at, number), &words)
}

/// Makes the changes of so many records behind a number, which are those reached, and tells them.
fn change_all(
    alloc: Global,
    tree: &mut TreeSoFar,
    at: u32,
    journal: &[[u64; RECORD_WORDS]],
    through: u64,
    count: u64,
) -> Result<Vec<Change>, SurveyRefusal>
    requires places { length journal.now ≡ 64 }
    requires low { at < 2 ^ 30 }
    requires through { through < 2 ^ 63 }
    requires count { count ≡ length (reached through journal.now) }
    requires few { count ≤ 64 }
    ensures sound { OnOk result (damage_of (changes_checks at through (tree_of tree.old)
        (places_of tree.old) (reached through journal.now)) ≡ None) }
    ensures tree { OnOk result (tree_of tree.new ≡
        tree_after (tree_of tree.old) (reached through journal.now)) }
    ensures told { IfOk result (λ changes. changes.items ≡ changes_above through journal.now) }
    ensures named { IfErr result (Refuses (changes_checks at through (tree_of tree.old)
        (places_of tree.old) (reached through journal.now))) }
{
    let mut changes = Vec::with_capacity(alloc, PLACES)?;
    for k in 0..count {
        changes.push(change_tree(tree, at, journal, through + k)?)?;
    }
    Ok(changes)
}

/// The tree after the records of the journal that are reached behind the number of a table.
///
/// The table has these nodes and this next inode number, and begins at the offset `table_at` of an
/// image; the first of the journal's 64 records begins at `at`, both below 2^30. The table's number
/// is below 2^63.
///
/// `Damaged` names the first check that fails: of each record reached, against the tree of those
/// before it, and then of all gates. Takes memory for the nodes that are made.
pub fn read_journal(
    alloc: Global,
    table_at: u32,
    at: u32,
    nodes: Vec<Node>,
    next: u64,
    through: u64,
    journal: &[[u64; RECORD_WORDS]],
) -> Result<Recovered, SurveyRefusal>
    requires table { table_at < 2 ^ 30 }
    requires low { at < 2 ^ 30 }
    requires through { through < 2 ^ 63 }
    requires places { length journal.now ≡ 64 }
    ensures sound { OnOk result (damage_of (journal_checks table_at at through
        (record { nodes = nodes.items; next = next }) journal.now) ≡ None) }
    ensures tree { IfOk result (λ read. record { nodes = read.nodes.items; next = read.next } ≡
        changed_by (record { nodes = nodes.items; next = next })
        (changes_above through journal.now)) }
    ensures changes { IfOk result (λ read. read.changes.items ≡
        changes_above through journal.now) }
    ensures last { IfOk result (λ read. read.last ≡ last_reached through journal.now) }
    ensures named { IfErr result (Refuses (journal_checks table_at at through
        (record { nodes = nodes.items; next = next }) journal.now)) }
{
    let count = count_reached(journal, through, PLACES as u32);
    let places = table_places(alloc, table_at)?;
    let mut tree = TreeSoFar {
        nodes,
        next,
        places,
    };
    let changes = change_all(alloc, &mut tree, at, journal, through, count)?;
    let last = through + count;
    check_gates(at, journal, last)?;
    Ok(Recovered {
        nodes: tree.nodes,
        next: tree.next,
        changes,
        last,
    })
}
