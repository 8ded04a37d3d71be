//! The kernel's part of a new store, on devices in memory that have the numbers of a store's.
ghost use Rattle.std.specs.Prelude.{◌≡◌, ◌<◌, ◌^◌, ◌++◌, [], IfOk, map, replicate};
ghost use Rattle.cfs_pmem.specs.AllMoments.{AreDistinct};
ghost use Rattle.cfs_pmem.specs.Images.{began};
ghost use Rattle.cfs_pmem.specs.Objects.{all_devices};
ghost use Rattle.cfs_ckpt.specs.Checkpoints.{seens_of};
ghost use Rattle.cfs_journal.specs.Journals.{changes_of, regions_of, through_of};
ghost use Rattle.cfs_gather_tests.specs.Blanks.{blanks};

use cfs_ckpt::Checkpoint;
use cfs_dir::Tree;
use cfs_fresh::queue;
use cfs_journal::Journal;
use cfs_kernel::NsState;
use cfs_names::StoredTree;
use cfs_pmem::{MemRegion, Meter};
use std::alloc::{AllocError, Global};

/// A region of so many zeros.
pub(crate) fn zeros(alloc: Global, device: u32, count: usize) -> Result<MemRegion, AllocError>
    requires { count < 2 ^ 32 }
    ensures { IfOk result (λ region.
        region ≡ record { seen = began device (replicate count 0); faults = 0 }) }
{
    Ok(MemRegion::new(alloc, device, vec![in alloc; 0; count]?)?)
}

/// A journal on zeros.
fn blank_journal(alloc: Global) -> Result<Journal<MemRegion>, AllocError>
    ensures changes { IfOk result (λ journal. changes_of journal ≡ []) }
    ensures through { IfOk result (λ journal. through_of journal ≡ 0) }
    ensures regions { IfOk result (λ journal.
        map (λ region. region.seen) (regions_of journal) ≡ blanks 64) }
{
    let mut records = Vec::with_capacity(alloc, 64)?;
    for number in 0..64 {
        records.push(zeros(alloc, 3 + number, 16)?)?;
    }
    let journal = Journal::blank(alloc, records)?;
    Ok(journal)
}

/// A checkpoint on zeros.
fn blank_checkpoint(alloc: Global) -> Result<Checkpoint<MemRegion>, AllocError>
    ensures { IfOk result (λ checkpoint.
        AreDistinct (all_devices (seens_of (λ region. region.seen) checkpoint ++ blanks 64))) }
{
    let selector = zeros(alloc, 0, 1)?;
    let first = zeros(alloc, 1, 3073)?;
    let second = zeros(alloc, 2, 3073)?;
    let tables = vec![in alloc; first, second]?;
    Ok(Checkpoint::blank(selector, tables))
}

/// The stored tree of a root alone. The second copy of the table is selected.
fn stored_tree(alloc: Global) -> Result<StoredTree<MemRegion>, AllocError> {
    let journal = blank_journal(alloc)?;
    let mut checkpoint = blank_checkpoint(alloc)?;
    let tree = Tree::with_root(alloc, 0o777, 0, 0)?;
    let mut meter = Meter::calm(alloc);
    if checkpoint.store(&mut meter, &tree, 0).is_err() {
        return Err(AllocError);
    }
    Ok(StoredTree::new(tree, journal, checkpoint))
}

/// The kernel's part, with that tree and one queue whose slots are all free.
pub(crate) fn kernel(alloc: Global) -> Result<NsState<MemRegion>, AllocError> {
    let stored = stored_tree(alloc)?;
    let queue = queue(alloc, 0)?;
    let queues = vec![in alloc; queue]?;
    NsState::new(alloc, stored, queues)
}
