ghost use Rattle.std.specs.Prelude.{◌≡◌, ◌<◌, ◌^◌, IfOk, replicate};
ghost use Rattle.cfs_pmem.specs.Images.{began};

use cfs_ckpt::{Checkpoint, TABLE_WORDS};
use cfs_dir::Tree;
use cfs_pmem::{MemRegion, Meter, Pick};
use std::alloc::{AllocError, Global};
use std::test::Fail;

/// A region of so many zeros.
fn zeros(alloc: Global, device: u32, count: usize) -> Result<MemRegion, AllocError>
    requires { count < 2 ^ 32 }
    ensures { IfOk result (λ region.
        region ≡ record { seen = began device (replicate count 0); faults = 0 }) }
{
    Ok(MemRegion::new(alloc, device, vec![in alloc; 0; count]?)?)
}

/// A checkpoint on zeros.
fn blank(alloc: Global) -> Result<Checkpoint<MemRegion>, AllocError> {
    let selector = zeros(alloc, 0, 1)?;
    let first = zeros(alloc, 1, 3073)?;
    let second = zeros(alloc, 2, 3073)?;
    let tables = vec![in alloc; first, second]?;
    Ok(Checkpoint::blank(selector, tables))
}

/// Stores the tree of an owner's root, as that after the change with the owner's number, with a
/// stop at the `n`th writing step; none is stored where that is 0. Answers whether it is stored.
fn stores(
    alloc: Global,
    checkpoint: &mut Checkpoint<MemRegion>,
    meter: &mut Meter,
    owner: u32,
    n: u64,
) -> Result<bool, AllocError> {
    if n == 0 {
        return Ok(false);
    }
    let tree = Tree::with_root(alloc, 0o700, owner, 4)?;
    meter.stop(n);
    let stored = checkpoint.store(meter, &tree, u64::from(owner)).is_ok();
    meter.revive();
    Ok(stored)
}

/// Whether these words tell the tree of an owner's root: the next inode number, the root and 255
/// free records.
fn is_table(words: &[u64], owner: u64) -> bool {
    words.len() == 3073
        && words.starts_with(&[2, 1, 1, 2, 0o700, owner, 4])
        && words.iter().skip(7).all(|word| *word == 0)
}

/// The owner of the tree that the selector selects, if its number is that of the change.
fn loaded(selector: &MemRegion, tables: &[MemRegion]) -> Option<u64> {
    let word = selector.words().first()?;
    let table = tables.get((*word % 2) as usize)?;
    let owner = *word / 2;
    if !is_table(table.words(), owner) {
        return None;
    }
    Some(owner)
}

/// What a crash leaves to be loaded.
fn loaded_after_crash(checkpoint: Checkpoint<MemRegion>, k: u64) -> Option<u64> {
    let (mut selector, mut tables) = checkpoint.into_parts();
    let mut pick = Pick::new(k);
    selector.crash(&mut pick);
    for copy in tables.iter_mut() {
        copy.crash(&mut pick);
    }
    loaded(&selector, &tables)
}

/// Stores the trees of the owners 5, 9 and 13, the last two with a stop at their `n`th and `m`th
/// writing steps.
fn run_stores(
    alloc: Global,
    checkpoint: &mut Checkpoint<MemRegion>,
    meter: &mut Meter,
    n: u64,
    m: u64,
) -> Result<[bool; 3], AllocError> {
    let first = stores(alloc, checkpoint, meter, 5, 4000)?;
    let second = stores(alloc, checkpoint, meter, 9, n)?;
    let third = stores(alloc, checkpoint, meter, 13, m)?;
    Ok([first, second, third])
}

/// Which of these stores succeed, and the owner whose tree a crash leaves.
fn left_by(alloc: Global, n: u64, m: u64, k: u64) -> Result<([bool; 3], Option<u64>), AllocError> {
    let mut meter = Meter::calm(alloc);
    let mut checkpoint = blank(alloc)?;
    let stored = run_stores(alloc, &mut checkpoint, &mut meter, n, m)?;
    Ok((stored, loaded_after_crash(checkpoint, k)))
}

// The second store selects its copy once the selector's word is written, step 3075, if the crash
// keeps what was present, and once that is persisted, step 3076, in any case. Before that stand the
// steps of the table's words, the last of which is step 3073, and its persist.
#[test]
fn a_stop_leaves_one_of_two_trees(rt: HostRuntime) -> Result<(), Fail> {
    for (n, durable, present) in [
        (1, 5, 5),
        (100, 5, 5),
        (3073, 5, 5),
        (3074, 5, 5),
        (3075, 5, 5),
        (3076, 5, 9),
        (3077, 9, 9),
    ] {
        let stored = [true, n > 3076, false];
        let kept = left_by(rt.alloc(), n, 0, 0)?;
        assert_eq!(rt; kept, (stored, Some(durable)), "stop {n}");
        let kept = left_by(rt.alloc(), n, 0, 1)?;
        assert_eq!(rt; kept, (stored, Some(present)), "stop {n}");
    }
    Ok(())
}

// A selector in doubt is persisted first, in one step, as it stands: with the old word where the
// word failed, with the new one where its persist did. The copy that it selects is left.
#[test]
fn a_selector_in_doubt_is_persisted_first(rt: HostRuntime) -> Result<(), Fail> {
    for (n, m, k, owner) in [
        (3075, 1, 0, 5),
        (3075, 1, 1, 5),
        (3075, 3077, 0, 5),
        (3075, 3077, 1, 13),
        (3075, 3078, 0, 13),
        (3076, 1, 0, 5),
        (3076, 1, 1, 9),
        (3076, 2, 0, 9),
        (3076, 3076, 1, 9),
        (3076, 3077, 0, 9),
        (3076, 3077, 1, 13),
        (3076, 3078, 0, 13),
    ] {
        let stored = [true, false, m > 3077];
        let kept = left_by(rt.alloc(), n, m, k)?;
        assert_eq!(rt; kept, (stored, Some(owner)), "stops {n} and {m}, pick {k}");
    }
    Ok(())
}

#[test]
fn bounds(rt: HostRuntime) {
    assert_eq!(rt; TABLE_WORDS, 3073);
}
