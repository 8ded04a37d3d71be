ghost use Rattle.std.specs.Prelude.{◌≡◌, ◌<◌, None};
ghost use Rattle.std.specs.Option.{ForSome};
ghost use Rattle.cfs_dir.specs.Namespace.{node_at};

use cfs_cred::Credential;
use cfs_dir::{Kind, Moved, Path, Tree};
use cfs_fresh::{Left, stored_tree};
use cfs_names::StoredTree;
use cfs_pmem::{MemRegion, Meter};
use std::alloc::Global;
use std::process::Abort;
use std::test::Fail;

/// The lowest record without a node.
fn free_record(tree: &Tree) -> Option<u32>
    ensures { ForSome result (λ rec. (rec < 256) × (node_at tree.now.nodes rec ≡ None)) }
{
    for rec in 0..256 {
        if tree.node(rec).is_none() {
            return Some(rec);
        }
    }
    None
}

fn owner() -> Credential {
    Credential { uid: 10, gid: 10 }
}

/// Makes a directory in the lowest free record. Answers whether it is stored.
fn make(
    alloc: Global,
    stored: &mut StoredTree<MemRegion>,
    meter: &mut Meter,
    path: &str,
) -> Result<bool, Fail> {
    let path = Path::parse(alloc, path.as_bytes())?;
    let tree = stored.tree();
    let rec = free_record(tree);
    let node = tree.node_to_make(Kind::Directory, owner(), &path, 0o755, rec)?;
    Ok(stored.create(meter, &node).is_ok())
}

/// Removes a directory. Answers whether that is stored.
fn remove(
    alloc: Global,
    stored: &mut StoredTree<MemRegion>,
    meter: &mut Meter,
    path: &str,
) -> Result<bool, Fail> {
    let path = Path::parse(alloc, path.as_bytes())?;
    let node = stored.tree().directory_to_remove(owner(), &path)?;
    Ok(stored.remove(meter, &node).is_ok())
}

/// Moves a directory. Answers whether that is stored.
fn rename(
    alloc: Global,
    stored: &mut StoredTree<MemRegion>,
    meter: &mut Meter,
    from: &str,
    to: &str,
) -> Result<bool, Fail> {
    let from = Path::parse(alloc, from.as_bytes())?;
    let to = Path::parse(alloc, to.as_bytes())?;
    // taken apart, since the check wants the type of a part in sight
    let Moved { node, replaced } = stored.tree().node_to_move(owner(), &from, &to)?;
    let moved = Moved { node, replaced };
    Ok(stored.move_node(meter, &moved).is_ok())
}

/// A store of so many directories in the root, made in this order from record 1 on.
fn begun_with(alloc: Global, meter: &mut Meter, count: u64) -> Result<StoredTree<MemRegion>, Fail> {
    let mut stored = stored_tree(alloc)?;
    for number in 0..count {
        let path = format!(in alloc; "/n{number}")?;
        make(alloc, &mut stored, meter, path.as_str())?;
    }
    Ok(stored)
}

/// The inode number and the first eight bytes of the name that are recovered at a record.
fn found_at(left: &Left, rec: u32) -> [u64; 2] {
    [left.recovered(rec, 0), left.recovered(rec, 7)]
}

/// How many of the directories that `begun_with` makes are recovered, in a row.
fn count_left(left: &Left) -> u32 {
    for rec in 1..256 {
        if left.recovered(rec, 0) != u64::from(rec) + 1 {
            return rec - 1;
        }
    }
    255
}

/// A change of a store of the directories n0 and n1, at the records 1 and 2.
#[derive(Clone, Copy)]
enum Call {
    /// Makes n2, at record 3.
    Make,
    /// Moves n0 over n1.
    Move,
    /// Removes n1.
    Remove,
}

fn run_call(
    alloc: Global,
    stored: &mut StoredTree<MemRegion>,
    meter: &mut Meter,
    call: Call,
) -> Result<bool, Fail> {
    match call {
        Call::Make => make(alloc, stored, meter, "/n2"),
        Call::Move => rename(alloc, stored, meter, "/n0", "/n1"),
        Call::Remove => remove(alloc, stored, meter, "/n1"),
    }
}

/// Whether a call that stops at its `n`th writing step is stored, and what a crash leaves: the name
/// at record 1 and the inode numbers at the records 2 and 3.
fn left_by_call(alloc: Global, call: Call, n: u64, k: u64) -> Result<(bool, [u64; 3]), Fail> {
    let mut meter = Meter::calm(alloc);
    let mut stored = begun_with(alloc, &mut meter, 2)?;
    meter.stop(n.max(1));
    let done = run_call(alloc, &mut stored, &mut meter, call)?;
    let left = Left::of(stored, k);
    Ok((
        done,
        [
            left.recovered(1, 7),
            left.recovered(2, 0),
            left.recovered(3, 0),
        ],
    ))
}

/// The names n0, n1 and x as words.
const N0: u64 = 0x306e;

const N1: u64 = 0x316e;

const X: u64 = 0x78;

/// Each stop of a call. The change is recovered once the gate of its record is written, step 17, if
/// the crash keeps what was present, and once that is persisted, step 18, in any case.
fn run_stops(rt: &impl Abort, alloc: Global, call: Call, after: [u64; 3]) -> Result<(), Fail> {
    let before = [N0, 3, 0];
    for n in 1..20 {
        for (k, least) in [(0, 19), (1, 18)] {
            let wanted = if n < least { before } else { after };
            let given = left_by_call(alloc, call, n, k)?;
            assert_eq!(rt; given, (n > 18, wanted), "stop {n}, pick {k}");
        }
    }
    Ok(())
}

#[test]
fn a_stop_leaves_the_change_made_or_not(rt: HostRuntime) -> Result<(), Fail> {
    run_stops(&rt, rt.alloc(), Call::Make, [N0, 3, 4])?;
    run_stops(&rt, rt.alloc(), Call::Move, [N1, 0, 0])?;
    run_stops(&rt, rt.alloc(), Call::Remove, [N0, 0, 0])?;
    Ok(())
}

/// The selector's word, and the gates of the first seven records of the journal.
fn selector_and_gates(left: &Left) -> [u64; 8] {
    [
        left.selector(),
        left.gate(0),
        left.gate(1),
        left.gate(2),
        left.gate(3),
        left.gate(4),
        left.gate(5),
        left.gate(6),
    ]
}

// The table of the root alone is in the first copy, with the word 0, and so that of 64 changes is in
// the second copy, with the word 129.
#[test]
fn seventy_changes_take_a_checkpoint(rt: HostRuntime) -> Result<(), Fail> {
    let mut meter = Meter::calm(rt.alloc());
    let stored = begun_with(rt.alloc(), &mut meter, 70)?;
    let left = Left::of(stored, 0);
    assert_eq!(rt; selector_and_gates(&left), [129, 65, 66, 67, 68, 69, 70, 7]);
    assert_eq!(rt; count_left(&left), 70);
    Ok(())
}

/// Whether the 65th directory is stored, which stops at its `n`th writing step, and what a crash
/// leaves: the selector's word, and how many directories.
fn left_by_last(alloc: Global, n: u64, k: u64) -> Result<(bool, u64, u32), Fail> {
    let mut meter = Meter::calm(alloc);
    let mut stored = begun_with(alloc, &mut meter, 64)?;
    meter.stop(n.max(1));
    let done = make(alloc, &mut stored, &mut meter, "/n64")?;
    let left = Left::of(stored, k);
    Ok((done, left.selector(), count_left(&left)))
}

// The checkpoint has 3,073 steps of the table's words, one of its persist and two of the selector,
// and the record has the eighteen behind them.
#[test]
fn a_stop_in_a_checkpoint_leaves_all_before(rt: HostRuntime) -> Result<(), Fail> {
    for (n, k, word, count) in [
        (1, 0, 0, 64),
        (1, 1, 0, 64),
        (3073, 1, 0, 64),
        (3074, 1, 0, 64),
        (3075, 0, 0, 64),
        (3075, 1, 0, 64),
        (3076, 0, 0, 64),
        (3076, 1, 129, 64),
        (3077, 0, 129, 64),
        (3077, 1, 129, 64),
        (3093, 1, 129, 64),
        (3094, 0, 129, 64),
        (3094, 1, 129, 65),
        (3095, 0, 129, 65),
    ] {
        let given = left_by_last(rt.alloc(), n, k)?;
        assert_eq!(rt; given, (n > 3094, word, count), "stop {n}, pick {k}");
    }
    Ok(())
}

/// Whether the tree has nothing at a record, and this next inode number.
fn is_as_before(tree: &Tree, rec: u32, next: u64) -> bool {
    tree.node(rec).is_none() && tree.next() == next
}

/// A directory of `count` and one more that stops at its `n`th writing step, and then another:
/// whether the first is stored and leaves the tree as before, and the other is stored, and what a
/// crash leaves of the other.
fn left_by_next(alloc: Global, count: u32, n: u64) -> Result<([bool; 3], [u64; 2]), Fail> {
    let mut meter = Meter::calm(alloc);
    let mut stored = begun_with(alloc, &mut meter, u64::from(count))?;
    meter.stop(n.max(1));
    let lost = make(alloc, &mut stored, &mut meter, "/w")?;
    meter.revive();
    let rec = count.saturating_add(1);
    let same = is_as_before(stored.tree(), rec, u64::from(rec) + 1);
    let kept = make(alloc, &mut stored, &mut meter, "/x")?;
    let left = Left::of(stored, 0);
    Ok(([lost, same, kept], found_at(&left, rec)))
}

#[test]
fn a_failed_change_is_none(rt: HostRuntime) -> Result<(), Fail> {
    for (count, n) in [
        (1, 1),
        (1, 17),
        (1, 18),
        (64, 1),
        (64, 3075),
        (64, 3076),
        (64, 3094),
    ] {
        let given = left_by_next(rt.alloc(), count, n)?;
        let wanted = ([false, true, true], [u64::from(count) + 2, X]);
        assert_eq!(rt; given, wanted, "{count} and stop {n}");
    }
    Ok(())
}
