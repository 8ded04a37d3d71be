//! The kernel's part.
ghost use Rattle.std.specs.Prelude.{◌≡◌, ◌<◌, ◌≤◌, ◌+◌, IfOk, IfSome, IsSome, None, Some, is_some, map, not, replicate, set, true, vec_len};
ghost use Rattle.std.specs.Option.{ForSome};
ghost use Rattle.cfs_dir.specs.Namespace.{node_at};
ghost use Rattle.cfs_grants.specs.Free.{is_free};
ghost use Rattle.cfs_grants.specs.Grants.{free_queue};
ghost use Rattle.cfs_grants.specs.Removed.{first_dying, given_to, kept_again, row_of};
ghost use Rattle.cfs_names.specs.StoredTrees.{tree_of};
ghost use Rattle.cfs_kernel.specs.Queues.{AreWhole, home_at};
ghost use Rattle.cfs_kernel.specs.Records.{AreKept};

use crate::queues::Queues;
use crate::refusal::NsRefusal;
use cfs_dir::{Posix, Tree};
use cfs_grants::{FreeRecords, Grants, RECORDS, RemovedFiles};
use cfs_names::StoredTree;
use cfs_pmem::Region;
use cfs_queue::Queue;
use cfs_requests::NameRefusal;
use std::alloc::{AllocError, Global};

/// The stored tree of names, the grants with their queues, and the removed files.
#[derive(Drop)]
pub struct NsState<R: Region> {
    pub(crate) stored: StoredTree<R>,
    pub(crate) queues: Queues<R>,
    pub(crate) removed: RemovedFiles,
    pub(crate) free: FreeRecords,
    /// How many grants were given.
    pub(crate) granted: u64,
    /// How many requests took a place.
    pub(crate) places: u64,
    pub ghost records: { AreKept (tree_of stored).nodes removed free },
    pub ghost counted: { granted ≤ places },
}

impl<R: Region + Drop> NsState<R> {
    ghost use Rattle.cfs_kernel.specs.Answers.{told};
    ghost use Rattle.cfs_kernel.specs.States.{Kernel, kernel_of, names_of, record_of, stored_of, IsSpent};

    /// The kernel's part of a store that was just mounted: no grant is given, no file is removed,
    /// and no request took a place. Each queue stands at its number, and all its slots are free.
    pub fn new(
        alloc: Global,
        stored: StoredTree<R>,
        queues: Vec<Queue<R>>,
    ) -> Result<NsState<R>, AllocError>
        requires most { vec_len queues ≤ 64 }
        requires whole { AreWhole (map (λ queue. Some queue) queues.items) }
        ensures stored { IfOk result (λ state. stored_of state ≡ stored) }
        ensures kernel { IfOk result (λ state. kernel_of state ≡ record {
          names = record {
            tree = tree_of stored;
            grants = replicate (vec_len queues) None;
            next_grant = 1;
          };
          requests = 0;
          removed = replicate 256 None;
          home = map (λ queue. Some queue) queues.items;
        }) }
    {
        let free = free_records(stored.tree());
        let removed = RemovedFiles::new(alloc)?;
        let queues = Queues::new(alloc, queues)?;
        Ok(NsState {
            stored,
            queues,
            removed,
            free,
            granted: 0,
            places: 0,
        })
    }

    /// The tree.
    pub fn tree(&self) -> &Tree
        ensures { result.now ≡ (names_of self.now).tree }
    {
        self.stored.tree()
    }

    /// The grants that stand, each at its queue.
    pub fn grants(&self) -> &Grants
        ensures { result.now ≡ (names_of self.now).grants }
    {
        self.queues.grants()
    }

    /// The removed files, each at its record.
    pub fn removed(&self) -> &RemovedFiles
        ensures { result.now ≡ (kernel_of self.now).removed }
    {
        &self.removed
    }

    /// The queue that the next open would be granted, which is home: the lowest without a grant.
    pub fn free_queue(&self) -> Option<u32>
        ensures lowest { result ≡ free_queue (names_of self.now).grants }
        ensures home { IfSome result (λ queue. IsSome (home_at (kernel_of self.now).home queue)) }
    {
        self.queues.free()
    }

    /// Gives the removed file of the lowest record to a pass that purges it, with its inode number:
    /// one that no pass has and no grant is for. None exactly where there is none.
    pub fn dying(&mut self, by: u64) -> Option<(u32, u64)>
        ensures found { result ≡ first_dying 0 (names_of self.old).grants
            (kernel_of self.old).removed }
        ensures given { kernel_of self.new ≡ record (kernel_of self.old) {
          removed = given_to by result (kernel_of self.old).removed;
        } }
        ensures stored { stored_of self.new ≡ stored_of self.old }
    {
        self.removed.dying(by, self.queues.grants())
    }

    /// Frees the record of a removed file, which was purged.
    pub fn freed(&mut self, rec: u32)
        requires there { is_some (row_of (kernel_of self.old).removed rec) ≡ true }
        ensures freed { kernel_of self.new ≡ record (kernel_of self.old) {
          removed = set (kernel_of self.old).removed rec None;
        } }
        ensures stored { stored_of self.new ≡ stored_of self.old }
    {
        self.removed.freed(rec);
        self.free.give(rec);
    }

    /// Takes a removed file back whose purge failed: the next `dying` may give it again.
    pub fn kept(&mut self, rec: u32)
        requires there { is_some (row_of (kernel_of self.old).removed rec) ≡ true }
        ensures kept { kernel_of self.new ≡ record (kernel_of self.old) {
          removed = set (kernel_of self.old).removed rec
              (kept_again (row_of (kernel_of self.old).removed rec));
        } }
        ensures stored { stored_of self.new ≡ stored_of self.old }
    {
        self.removed.kept(rec);
    }

    /// The stored tree, and the queues that are home, each at its number.
    pub fn into_parts(self) -> (StoredTree<R>, Vec<Option<Queue<R>>>)
        ensures stored { result.0 ≡ stored_of self }
        ensures home { result.1.items ≡ (kernel_of self).home }
    {
        (self.stored, self.queues.into_home())
    }

    /// The record that a node takes which is made now.
    pub(crate) fn free_record(&self) -> Option<u32>
        ensures lowest { result ≡ record_of (kernel_of self.now) }
        ensures within { ForSome result (λ rec. (rec < 256)
            × (node_at (names_of self.now).tree.nodes rec ≡ None)) }
    {
        self.free.lowest()
    }

    /// How a refusal is told.
    pub(crate) fn refused(&self, refusal: NameRefusal) -> NsRefusal
        ensures { result ≡ told (kernel_of self.now) refusal }
    {
        match (refusal, self.free_record()) {
            (NameRefusal::Words(error), _) => NsRefusal::Path(error),
            (NameRefusal::Tree(Posix::TooManyFiles), None) => NsRefusal::NoRecord { records: 256 },
            (NameRefusal::Tree(Posix::TooManyFiles), Some(_)) => NsRefusal::NoNumber {
                next: self.stored.tree().next(),
            },
            (NameRefusal::Tree(error), _) => NsRefusal::Tree {
                error,
                at: self.places,
            },
        }
    }
}

/// The records that no node of a tree has.
fn free_records(tree: &Tree) -> FreeRecords
    ensures free { (rec : _) → rec < 256 →
        is_free result rec ≡ not (is_some (node_at tree.now.nodes rec)) }
    ensures within { (rec : _) → is_some (node_at tree.now.nodes rec) ≡ true → rec < 256 }
{
    // its clause tells that it is a tree
    let _next = tree.next();
    let mut free = FreeRecords::none();
    for rec in 0..RECORDS as u32 {
        if tree.node(rec).is_none() {
            free.give(rec);
        }
    }
    free
}
