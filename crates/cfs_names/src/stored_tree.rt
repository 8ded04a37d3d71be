//! A stored tree and its calls.
ghost use Rattle.std.specs.Prelude.{◌≡◌, ◌≢◌, ◌↔◌, ◌<◌, ◌+◌, ◌++◌, Err, IsTrue, OnErr, OnOk, is_ok, length, map};
ghost use Rattle.std.proofs.Math.ListN.{set};
ghost use Rattle.std.proofs.Props.{props};
ghost use Rattle.cfs_dir.specs.Moved.{CanMove, change_of};
ghost use Rattle.cfs_dir.specs.Tree.{CanJoin, CanLeave};
ghost use Rattle.cfs_pmem.specs.AllMoments.{AreDistinct};
ghost use Rattle.cfs_pmem.specs.Images.{IsImage};
ghost use Rattle.cfs_pmem.specs.Objects.{all_devices, seen_at, MomentsOf};
ghost use Rattle.cfs_ckpt.specs.Checkpoints.{seens_of};
ghost use Rattle.cfs_ckpt.specs.Distinct.{distinct_prop};
ghost use Rattle.cfs_journal.specs.Journals.{changes_of, regions_of, through_of};
ghost use Rattle.cfs_names.specs.Behind.{AreBehind};
ghost use Rattle.cfs_names.specs.Causes.{HasCauseOf};
ghost use Rattle.cfs_names.specs.Held.{changes_left, MakesChange};
ghost use Rattle.cfs_names.specs.Recovered.{recovered, IsTreeOr, Recovers};
ghost use Rattle.cfs_names.specs.Steps.{MakesRoom, StoresChange};

use crate::store_refusal::StoreRefusal;
use cfs_ckpt::Checkpoint;
use cfs_dir::{Change, Moved, Node, Tree};
use cfs_journal::Journal;
use cfs_pmem::{Power, Region};

/// The selector has no room for a number of a change that is as great.
const NUMBER_END: u64 = 9_223_372_036_854_775_808;

/// The tree of names, with the journal and the checkpoint that a crash recovers it from.
#[derive(Drop)]
pub struct StoredTree<R: Region> {
    tree: Tree,
    journal: Journal<R>,
    checkpoint: Checkpoint<R>,
    pub ghost behind: { AreBehind (through_of journal) (changes_of journal) tree
        (seens_of R.seen checkpoint) },
    pub ghost distinct: { AreDistinct (all_devices (seens_of R.seen checkpoint
        ++ map R.seen (regions_of journal))) } by { Prim.hlevel (distinct_prop, props) },
}

impl<R: Region + Drop> StoredTree<R> {
    ghost use Rattle.cfs_names.specs.StoredTrees.{checkpoint_of, doubt_in, found_at, held_of, is_full, journal_of, last_number, next_faults, place_in, records_in, room_ops, seens_in, table_faults, tables_in, tree_of, IsSame, LacksRoom};

    /// The tree with its journal and its checkpoint: whatever a crash loads of the checkpoint, the
    /// journal holds the changes from there to the tree.
    pub fn new(tree: Tree, journal: Journal<R>, checkpoint: Checkpoint<R>) -> StoredTree<R>
        requires behind { AreBehind (through_of journal) (changes_of journal) tree
            (seens_of R.seen checkpoint) }
        requires distinct { AreDistinct
            (all_devices (seens_of R.seen checkpoint ++ map R.seen (regions_of journal))) }
        ensures tree { tree_of result ≡ tree }
        ensures journal { journal_of result ≡ journal }
        ensures checkpoint { checkpoint_of result ≡ checkpoint }
    {
        StoredTree {
            tree,
            journal,
            checkpoint,
        }
    }

    /// The tree.
    pub fn tree(&self) -> &Tree
        ensures { result.now ≡ tree_of self.now }
    {
        &self.tree
    }

    /// The tree, its journal and its checkpoint.
    pub fn into_parts(self) -> (Tree, Journal<R>, Checkpoint<R>)
        ensures tree { result.0 ≡ tree_of self }
        ensures journal { result.1 ≡ journal_of self }
        ensures checkpoint { result.2 ≡ checkpoint_of self }
    {
        (self.tree, self.journal, self.checkpoint)
    }

    /// Makes room for one more record: where all 64 stand, stores the tree as a checkpoint and cuts
    /// the journal, which writes 3,076 steps, or one more where the selector is in doubt.
    fn make_room<P: Power>(&mut self, power: &mut P) -> Result<(), StoreRefusal>
        ensures tree { tree_of self.new ≡ tree_of self.old }
        ensures doubt { doubt_in self.new ≡ doubt_in self.old }
        ensures room { OnOk result (length (changes_of (journal_of self.new)) < 64) }
        ensures number { last_number self.new ≡ last_number self.old }
        ensures left { OnOk result (changes_of (journal_of self.new) ≡
            changes_left (is_full self.old) (changes_of (journal_of self.old))) }
        ensures kept { OnErr result
            (changes_of (journal_of self.new) ≡ changes_of (journal_of self.old)) }
        ensures regions { regions_of (journal_of self.new) ≡ regions_of (journal_of self.old) }
        ensures lacks { (result ≡ Err StoreRefusal.NoMemory) ↔ LacksRoom self.old }
        ensures unchanged { result ≡ Err StoreRefusal.NoMemory →
            IsSame self.old self.new × (P.asked power.new ≡ P.asked power.old) }
        ensures does { IsTrue R.obeys_power → result ≢ Err StoreRefusal.NoMemory →
            MakesRoom (is_full self.old) (room_ops self.old) (is_ok result)
            (found_at R.seen 0 self.old).unsure (found_at R.seen 0 self.new).unsure
            (P.asked power.old) (tables_in R.seen self.old)
            (P.asked power.new) (tables_in R.seen self.new) }
        ensures cause { HasCauseOf
            (table_faults R.faults self.old) (table_faults R.faults self.new) 0 0 result }
        ensures moments { MomentsOf IsImage
            (λ images. IsTreeOr (tree_of self.old) (doubt_in self.old) (recovered images))
            (P.asked power.old) (seens_in R.seen self.old)
            (P.asked power.new) (seens_in R.seen self.new) }
    {
        if !self.journal.is_full() {
            return Ok(());
        }
        let last = self.journal.last();
        if last >= NUMBER_END {
            return Err(StoreRefusal::NoMemory);
        }
        if self.checkpoint.store(power, &self.tree, last).is_err() {
            return Err(StoreRefusal::Failed);
        }
        self.journal.cut(last);
        Ok(())
    }

    /// Adds a node to the tree: a record of the journal, and before it a checkpoint where all 64
    /// records stand.
    ///
    /// NoMemory comes before anything was asked of a device; where the selector has no room for the
    /// number of the last change it always comes. After Failed the tree is as before, and a crash
    /// recovers it, or the tree with the change that is in doubt then.
    pub fn create<P: Power>(&mut self, power: &mut P, node: &Node) -> Result<(), StoreRefusal>
        requires { CanJoin (tree_of self.old) node.now }
        ensures makes { MakesChange (is_full self.old) (Change.Create node.now) result
            (held_of self.old) (held_of self.new) }
        ensures lacks { LacksRoom self.old → result ≡ Err StoreRefusal.NoMemory }
        ensures unchanged { result ≡ Err StoreRefusal.NoMemory →
            IsSame self.old self.new × (P.asked power.new ≡ P.asked power.old) }
        // The steps, in order, and what is in doubt after each failure.
        ensures does { IsTrue R.obeys_power → result ≢ Err StoreRefusal.NoMemory →
            StoresChange (is_full self.old) (room_ops self.old) (last_number self.old + 1)
            (Change.Create node.now) result
            (P.asked power.old) (found_at R.seen (place_in self.old) self.old)
            (P.asked power.new) (found_at R.seen (place_in self.old) self.new) }
        ensures others { records_in R.seen self.new ≡
            set (records_in R.seen self.old) (place_in self.old)
            (seen_at (records_in R.seen self.new) (place_in self.old)) }
        ensures cause { HasCauseOf
            (table_faults R.faults self.old) (table_faults R.faults self.new)
            (next_faults R.faults (place_in self.old) self.old)
            (next_faults R.faults (place_in self.old) self.new) result }
        // At each moment a crash recovers the tree, with the change in doubt or without, or the
        // tree after this change.
        ensures moments { MomentsOf IsImage
            (Recovers (tree_of self.old) (doubt_in self.old) (Change.Create node.now))
            (P.asked power.old) (seens_in R.seen self.old)
            (P.asked power.new) (seens_in R.seen self.new) }
    {
        if self.journal.is_full() {
            return self.create_behind_checkpoint(power, node);
        }
        if self.tree.insert(node).is_err() {
            return Err(StoreRefusal::NoMemory);
        }
        if self.journal.append(power, &Change::Create(*node)).is_err() {
            self.tree.take_back(node);
            return Err(StoreRefusal::Failed);
        }
        Ok(())
    }

    /// Adds a node where all records stand. The checkpoint stores the tree without the node, so the
    /// tree with it is a second one, which takes its memory before the first step.
    fn create_behind_checkpoint<P: Power>(
        &mut self,
        power: &mut P,
        node: &Node,
    ) -> Result<(), StoreRefusal>
        requires { CanJoin (tree_of self.old) node.now }
        ensures makes { MakesChange (is_full self.old) (Change.Create node.now) result
            (held_of self.old) (held_of self.new) }
        ensures lacks { LacksRoom self.old → result ≡ Err StoreRefusal.NoMemory }
        ensures unchanged { result ≡ Err StoreRefusal.NoMemory →
            IsSame self.old self.new × (P.asked power.new ≡ P.asked power.old) }
        // The steps, in order, and what is in doubt after each failure.
        ensures does { IsTrue R.obeys_power → result ≢ Err StoreRefusal.NoMemory →
            StoresChange (is_full self.old) (room_ops self.old) (last_number self.old + 1)
            (Change.Create node.now) result
            (P.asked power.old) (found_at R.seen (place_in self.old) self.old)
            (P.asked power.new) (found_at R.seen (place_in self.old) self.new) }
        ensures others { records_in R.seen self.new ≡
            set (records_in R.seen self.old) (place_in self.old)
            (seen_at (records_in R.seen self.new) (place_in self.old)) }
        ensures cause { HasCauseOf
            (table_faults R.faults self.old) (table_faults R.faults self.new)
            (next_faults R.faults (place_in self.old) self.old)
            (next_faults R.faults (place_in self.old) self.new) result }
        // At each moment a crash recovers the tree, with the change in doubt or without, or the
        // tree after this change.
        ensures moments { MomentsOf IsImage
            (Recovers (tree_of self.old) (doubt_in self.old) (Change.Create node.now))
            (P.asked power.old) (seens_in R.seen self.old)
            (P.asked power.new) (seens_in R.seen self.new) }
    {
        let Ok(mut grown) = self.tree.clone() else {
            return Err(StoreRefusal::NoMemory);
        };
        if grown.insert(node).is_err() {
            return Err(StoreRefusal::NoMemory);
        }
        match self.make_room(power) {
            Ok(()) => {}
            Err(refusal) => return Err(refusal),
        }
        if self.journal.append(power, &Change::Create(*node)).is_err() {
            return Err(StoreRefusal::Failed);
        }
        self.tree = grown;
        Ok(())
    }

    /// Removes a node from the tree, as `create` adds one. It takes no memory: NoMemory comes
    /// exactly where the selector has no room for the number of the last change.
    pub fn remove<P: Power>(&mut self, power: &mut P, node: &Node) -> Result<(), StoreRefusal>
        requires { CanLeave (tree_of self.old) node.now }
        ensures makes { MakesChange
            (is_full self.old) (Change.Remove node.now.rec node.now.ino) result
            (held_of self.old) (held_of self.new) }
        ensures lacks { (result ≡ Err StoreRefusal.NoMemory) ↔ LacksRoom self.old }
        ensures unchanged { result ≡ Err StoreRefusal.NoMemory →
            IsSame self.old self.new × (P.asked power.new ≡ P.asked power.old) }
        // The steps, in order, and what is in doubt after each failure.
        ensures does { IsTrue R.obeys_power → result ≢ Err StoreRefusal.NoMemory →
            StoresChange (is_full self.old) (room_ops self.old) (last_number self.old + 1)
            (Change.Remove node.now.rec node.now.ino) result
            (P.asked power.old) (found_at R.seen (place_in self.old) self.old)
            (P.asked power.new) (found_at R.seen (place_in self.old) self.new) }
        ensures others { records_in R.seen self.new ≡
            set (records_in R.seen self.old) (place_in self.old)
            (seen_at (records_in R.seen self.new) (place_in self.old)) }
        ensures cause { HasCauseOf
            (table_faults R.faults self.old) (table_faults R.faults self.new)
            (next_faults R.faults (place_in self.old) self.old)
            (next_faults R.faults (place_in self.old) self.new) result }
        // At each moment a crash recovers the tree, with the change in doubt or without, or the
        // tree after this change.
        ensures moments { MomentsOf IsImage
            (Recovers (tree_of self.old) (doubt_in self.old)
            (Change.Remove node.now.rec node.now.ino))
            (P.asked power.old) (seens_in R.seen self.old)
            (P.asked power.new) (seens_in R.seen self.new) }
    {
        self.make_room(power)?;
        let change = Change::Remove {
            rec: node.rec,
            ino: node.ino,
        };
        if self.journal.append(power, &change).is_err() {
            return Err(StoreRefusal::Failed);
        }
        self.tree.remove(node);
        Ok(())
    }

    /// Moves a node, and removes the one that it replaces, as `remove` removes one. A node that
    /// stands so already is moved as well: the caller who knows that it does calls nothing.
    pub fn move_node<P: Power>(&mut self, power: &mut P, moved: &Moved) -> Result<(), StoreRefusal>
        requires { CanMove (tree_of self.old) moved.now }
        ensures makes { MakesChange (is_full self.old) (change_of moved.now) result
            (held_of self.old) (held_of self.new) }
        ensures lacks { (result ≡ Err StoreRefusal.NoMemory) ↔ LacksRoom self.old }
        ensures unchanged { result ≡ Err StoreRefusal.NoMemory →
            IsSame self.old self.new × (P.asked power.new ≡ P.asked power.old) }
        // The steps, in order, and what is in doubt after each failure.
        ensures does { IsTrue R.obeys_power → result ≢ Err StoreRefusal.NoMemory →
            StoresChange (is_full self.old) (room_ops self.old) (last_number self.old + 1)
            (change_of moved.now) result
            (P.asked power.old) (found_at R.seen (place_in self.old) self.old)
            (P.asked power.new) (found_at R.seen (place_in self.old) self.new) }
        ensures others { records_in R.seen self.new ≡
            set (records_in R.seen self.old) (place_in self.old)
            (seen_at (records_in R.seen self.new) (place_in self.old)) }
        ensures cause { HasCauseOf
            (table_faults R.faults self.old) (table_faults R.faults self.new)
            (next_faults R.faults (place_in self.old) self.old)
            (next_faults R.faults (place_in self.old) self.new) result }
        // At each moment a crash recovers the tree, with the change in doubt or without, or the
        // tree after this change.
        ensures moments { MomentsOf IsImage
            (Recovers (tree_of self.old) (doubt_in self.old) (change_of moved.now))
            (P.asked power.old) (seens_in R.seen self.old)
            (P.asked power.new) (seens_in R.seen self.new) }
    {
        self.make_room(power)?;
        if self.journal.append(power, &moved.change()).is_err() {
            return Err(StoreRefusal::Failed);
        }
        self.tree.move_node(moved);
        Ok(())
    }
}
