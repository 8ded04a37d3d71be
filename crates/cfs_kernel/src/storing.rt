//! Changes of the tree that are stored, and what they make of its records.
ghost use Rattle.std.specs.Prelude.{◌≡◌, ◌≢◌, ◌<◌, ◌↔◌, Err, OnErr, OnOk, Some};
ghost use Rattle.std.specs.Option.{ForSome};
ghost use Rattle.cfs_dir.specs.declared.change.Change.TheVariants as changes;
ghost use Rattle.cfs_dir.specs.Moved.{CanMove, change_of, with_move};
ghost use Rattle.cfs_dir.specs.Namespace.{with_node, without_node};
ghost use Rattle.cfs_dir.specs.Tree.{CanJoin, CanLeave};
ghost use Rattle.cfs_names.specs.StoredTrees.{LacksRoom};
ghost use Rattle.cfs_kernel.specs.Records.{AreFreed, buried};
ghost use Rattle.cfs_kernel.specs.States.{kernel_of, names_of, record_of, stored_of, with_buried, with_tree};
ghost use Rattle.cfs_kernel.specs.Storing.{Rests, Stores};

use crate::ns_state::NsState;
use cfs_dir::{Moved, Node};
use cfs_grants::{FreeRecords, RemovedFiles};
use cfs_names::StoreRefusal;
use cfs_pmem::{Power, Region};

impl<R: Region + Drop> NsState<R> {
    /// Adds a node, which takes the lowest free record.
    pub(crate) fn add_node<P: Power>(
        &mut self,
        power: &mut P,
        node: &Node,
    ) -> Result<(), StoreRefusal>
        requires joins { CanJoin (names_of self.old).tree node.now }
        requires record { record_of (kernel_of self.old) ≡ Some node.now.rec }
        ensures passed { OnOk result (kernel_of self.new ≡
            with_tree (with_node (names_of self.old).tree node.now) (kernel_of self.old)) }
        ensures failed { OnErr result (kernel_of self.new ≡ kernel_of self.old) }
        ensures without_memory { result ≡ Err StoreRefusal.NoMemory →
            Rests (P.asked power.old) (stored_of self.old)
            (P.asked power.new) (stored_of self.new) }
        ensures stores { result ≢ Err StoreRefusal.NoMemory →
            Stores R.seen R.faults R.obeys_power (changes.Create node.now) result
            (P.asked power.old) (stored_of self.old) (P.asked power.new) (stored_of self.new) }
        ensures lacks { LacksRoom (stored_of self.old) → result ≡ Err StoreRefusal.NoMemory }
    {
        let result = self.stored.create(power, node);
        if result.is_err() {
            return result;
        }
        self.free.take(node.rec);
        result
    }

    /// Removes a node. A file's record waits until its last grant is closed and it is purged.
    pub(crate) fn remove_node<P: Power>(
        &mut self,
        power: &mut P,
        node: &Node,
    ) -> Result<(), StoreRefusal>
        requires { CanLeave (names_of self.old).tree node.now }
        ensures passed { OnOk result (kernel_of self.new ≡
            with_tree (without_node (names_of self.old).tree node.now)
            (with_buried (Some node.now) (kernel_of self.old))) }
        ensures failed { OnErr result (kernel_of self.new ≡ kernel_of self.old) }
        ensures without_memory { result ≡ Err StoreRefusal.NoMemory →
            Rests (P.asked power.old) (stored_of self.old)
            (P.asked power.new) (stored_of self.new) }
        ensures stores { result ≢ Err StoreRefusal.NoMemory →
            Stores R.seen R.faults R.obeys_power (changes.Remove node.now.rec node.now.ino) result
            (P.asked power.old) (stored_of self.old) (P.asked power.new) (stored_of self.new) }
        ensures lacks { (result ≡ Err StoreRefusal.NoMemory) ↔ LacksRoom (stored_of self.old) }
    {
        let result = self.stored.remove(power, node);
        if result.is_err() {
            return result;
        }
        bury(&mut self.removed, &mut self.free, Some(*node));
        result
    }

    /// Moves a node, and removes the one that it replaces.
    pub(crate) fn move_node<P: Power>(
        &mut self,
        power: &mut P,
        moved: &Moved,
    ) -> Result<(), StoreRefusal>
        requires { CanMove (names_of self.old).tree moved.now }
        ensures passed { OnOk result (kernel_of self.new ≡
            with_tree (with_move (names_of self.old).tree moved.now)
            (with_buried moved.now.replaced (kernel_of self.old))) }
        ensures failed { OnErr result (kernel_of self.new ≡ kernel_of self.old) }
        ensures without_memory { result ≡ Err StoreRefusal.NoMemory →
            Rests (P.asked power.old) (stored_of self.old)
            (P.asked power.new) (stored_of self.new) }
        ensures stores { result ≢ Err StoreRefusal.NoMemory →
            Stores R.seen R.faults R.obeys_power (change_of moved.now) result
            (P.asked power.old) (stored_of self.old) (P.asked power.new) (stored_of self.new) }
        ensures lacks { (result ≡ Err StoreRefusal.NoMemory) ↔ LacksRoom (stored_of self.old) }
    {
        let result = self.stored.move_node(power, moved);
        if result.is_err() {
            return result;
        }
        bury(&mut self.removed, &mut self.free, moved.replaced);
        result
    }
}

/// Frees the record of a directory that has left, and keeps that of a file as a removed file's.
fn bury(removed: &mut RemovedFiles, free: &mut FreeRecords, node: Option<Node>)
    requires { ForSome node (λ node. node.rec < 256) }
    ensures removed { removed.new ≡ buried node removed.old }
    ensures free { AreFreed node free.old free.new }
{
    let Some(node) = node else {
        return;
    };
    if node.kind.is_directory() {
        free.give(node.rec);
    } else {
        removed.add(node.rec, node.ino);
    }
}
