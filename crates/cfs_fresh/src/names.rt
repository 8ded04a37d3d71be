//! A tree of names that begins.
ghost use Rattle.std.specs.Prelude.{◌≡◌, ◌<◌, ◌^◌, ◌++◌, [], IfOk, map, replicate};
ghost use Rattle.cfs_pmem.specs.AllMoments.{AreDistinct};
ghost use Rattle.cfs_pmem.specs.Images.{began};
ghost use Rattle.cfs_pmem.specs.Objects.{all_devices};
ghost use Rattle.cfs_ckpt.specs.Checkpoints.{seens_of};
ghost use Rattle.cfs_journal.specs.Journals.{changes_of, regions_of, through_of};
ghost use Rattle.cfs_journal.proofs.Blanks.{blanks};

use cfs_ckpt::Checkpoint;
use cfs_dir::Tree;
use cfs_journal::Journal;
use cfs_names::StoredTree;
use cfs_pmem::{MemRegion, Meter};
use std::alloc::{AllocError, Global};

/// A region of so many zeros.
fn zeros(alloc: Global, device: u32, count: usize) -> Result<MemRegion, AllocError>
    requires { count < 2 ^ 32 }
    ensures { IfOk result (λ region.
        region ≡ record { seen = began device (replicate count 0); faults = 0 }) }
{
    Ok(MemRegion::new(alloc, device, vec![in alloc; 0; count]?)?)
}

/// A journal on zeros: the devices 0 to 63.
fn blank_journal(alloc: Global) -> Result<Journal<MemRegion>, AllocError>
    ensures changes { IfOk result (λ journal. changes_of journal ≡ []) }
    ensures through { IfOk result (λ journal. through_of journal ≡ 0) }
    ensures regions { IfOk result (λ journal.
        map (λ region. region.seen) (regions_of journal) ≡ blanks 64) }
{
    let mut records = Vec::with_capacity(alloc, 64)?;
    for device in 0..64 {
        records.push(zeros(alloc, device, 16)?)?;
    }
    let journal = Journal::blank(alloc, records)?;
    Ok(journal)
}

/// A checkpoint on zeros: the devices 64 to 66.
fn blank_checkpoint(alloc: Global) -> Result<Checkpoint<MemRegion>, AllocError>
    ensures { IfOk result (λ checkpoint.
        AreDistinct (all_devices (seens_of (λ region. region.seen) checkpoint ++ blanks 64))) }
{
    let selector = zeros(alloc, 64, 1)?;
    let first = zeros(alloc, 65, 3073)?;
    let second = zeros(alloc, 66, 3073)?;
    let tables = vec![in alloc; first, second]?;
    Ok(Checkpoint::blank(selector, tables))
}

/// The stored tree of a root alone, with the permission bits 0o755, of user 10 and group 10. Its
/// journal is on the devices 0 to 63, and its checkpoint on the devices 64 to 66. The first copy is
/// selected, as in the image of a new store: it is the second to be stored.
pub fn stored_tree(alloc: Global) -> Result<StoredTree<MemRegion>, AllocError> {
    let journal = blank_journal(alloc)?;
    let mut checkpoint = blank_checkpoint(alloc)?;
    let tree = Tree::with_root(alloc, 0o755, 10, 10)?;
    let mut meter = Meter::calm(alloc);
    if checkpoint.store(&mut meter, &tree, 0).is_err() {
        return Err(AllocError);
    }
    if checkpoint.store(&mut meter, &tree, 0).is_err() {
        return Err(AllocError);
    }
    Ok(StoredTree::new(tree, journal, checkpoint))
}
