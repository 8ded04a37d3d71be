//! The checkpoint and its calls.
ghost use Rattle.std.specs.Prelude.{◌≡◌, ◌∷◌, ◌<◌, ◌^◌, suc, true, false, map, IsTrue, OnOk, OnErr};
ghost use Rattle.cfs_dir.specs.Tree.{IsTree};
ghost use Rattle.cfs_dir.specs.Words.{table_in, table_words};
ghost use Rattle.cfs_pmem.specs.Images.{words_of, IsImage, IsSure};
ghost use Rattle.cfs_pmem.specs.Objects.{seen_at, MomentsOf};
ghost use Rattle.cfs_ckpt.specs.Causes.{HasOneCause};
ghost use Rattle.cfs_ckpt.specs.Distinct.{distinct_prop};
ghost use Rattle.cfs_ckpt.specs.History.{StoreMoments};
ghost use Rattle.cfs_ckpt.specs.Loads.{loaded, CanLoad, LoadsOnly};
ghost use Rattle.cfs_ckpt.specs.Placed.{DoesPlaced};
ghost use Rattle.cfs_ckpt.specs.Selects.{AreFresh, Selects};
ghost use Rattle.cfs_ckpt.specs.Stores.{free_copy, put_ops, select_ops, settle_ops, store_ops, word_for, Stores};
ghost use Rattle.std.proofs.Props.{props};

use crate::table::write_table;
use cfs_dir::Tree;
use cfs_pmem::{DeviceFault, Power, Region};

/// The tree as the last store left it, on a selector of one word and two copies of its table.
#[derive(Drop)]
pub struct Checkpoint<R: Region> {
    selector: R,
    /// The two copies.
    tables: Vec<R>,
    /// The selector's word as it now stands.
    word: u64,
    /// Whether a fault left the selector in doubt: a crash may leave an earlier word of it.
    unsure: bool,
    pub ghost standing: { Selects word unsure
        (R.seen selector ∷ map R.seen tables.items) } by { Prim.hlevel (distinct_prop, props) },
}

impl<R: Region + Drop> Checkpoint<R> {
    ghost use Rattle.cfs_ckpt.specs.Checkpoints.{faults_of, seens_of, selector_of, tables_of, unsure_of, word_of};

    /// The checkpoint on a selector that holds this word, and on two copies, of which the selected
    /// one is durable.
    pub fn new(selector: R, tables: Vec<R>, word: u64) -> Checkpoint<R>
        requires { Selects word false (R.seen selector ∷ map R.seen tables.items) }
        ensures selector { selector_of result ≡ selector }
        ensures tables { tables_of result ≡ tables.items }
        ensures word { word_of result ≡ word }
        ensures settled { unsure_of result ≡ false }
    {
        Checkpoint {
            selector,
            tables,
            word,
            unsure: false,
        }
    }

    /// The checkpoint of a new store: the selector's word is 0, and the first copy holds the tree.
    pub fn blank(selector: R, tables: Vec<R>) -> Checkpoint<R>
        requires { AreFresh (R.seen selector ∷ map R.seen tables.items) }
        ensures selector { selector_of result ≡ selector }
        ensures tables { tables_of result ≡ tables.items }
        ensures word { word_of result ≡ 0 }
        ensures settled { unsure_of result ≡ false }
    {
        Checkpoint::new(selector, tables, 0)
    }

    /// The selector and the two copies.
    pub fn into_parts(self) -> (R, Vec<R>)
        ensures selector { result.0 ≡ selector_of self }
        ensures tables { result.1.items ≡ tables_of self }
    {
        (self.selector, self.tables)
    }

    /// Stores a tree as that after the change of the journal with the number `through`: writes the
    /// copy that is not selected, persists it, and selects it. 3,076 writing steps, and one more
    /// where the selector is in doubt: then it is persisted first, as it stands. Takes no memory.
    ///
    /// It fails only for a device fault. Where that was one of the selector, the selector is in
    /// doubt: a crash may load this tree, or what could be loaded before.
    pub fn store<P: Power>(
        &mut self,
        power: &mut P,
        tree: &Tree,
        through: u64,
    ) -> Result<(), DeviceFault>
        requires { through < 2 ^ 63 }
        // The steps, in order, and whether a failure leaves the selector in doubt.
        ensures does { IsTrue R.obeys_power → Stores
            (store_ops (unsure_of self.old) (word_of self.old) tree.now through)
            (unsure_of self.new) result
            (P.asked power.old) (seens_of R.seen self.old)
            (P.asked power.new) (seens_of R.seen self.new) }
        ensures settled { OnOk result (unsure_of self.new ≡ false) }
        ensures stored { OnOk result (LoadsOnly (seens_of R.seen self.new)
            record { tree = tree.now; through = through }) }
        ensures cause { HasOneCause
            (faults_of R.faults self.old) (faults_of R.faults self.new) result }
        // At each moment an image loads what one could load before the call, or this.
        ensures moments { StoreMoments record { tree = tree.now; through = through }
            (P.asked power.old) (seens_of R.seen self.old)
            (P.asked power.new) (seens_of R.seen self.new) }
    {
        self.settle(power)?;
        self.put_table(power, tree)?;
        self.select(power, through)?;
        Ok(())
    }

    /// The copy that is not selected.
    fn free_copy(&self) -> usize
        ensures { result ≡ free_copy (word_of self.now) }
    {
        (1 - self.word % 2) as usize
    }

    /// Persists a selector in doubt as it stands: one writing step, or none.
    fn settle<P: Power>(&mut self, power: &mut P) -> Result<(), DeviceFault>
        ensures settled { OnOk result (unsure_of self.new ≡ false) }
        ensures doubtful { OnErr result (unsure_of self.new ≡ true) }
        ensures word { word_of self.new ≡ word_of self.old }
        ensures does { IsTrue R.obeys_power → DoesPlaced (settle_ops (unsure_of self.old)) result
            (P.asked power.old) (seens_of R.seen self.old)
            (P.asked power.new) (seens_of R.seen self.new) }
        ensures cause { HasOneCause
            (faults_of R.faults self.old) (faults_of R.faults self.new) result }
        ensures moments { MomentsOf IsImage
            (λ images. CanLoad (seens_of R.seen self.old) (loaded images))
            (P.asked power.old) (seens_of R.seen self.old)
            (P.asked power.new) (seens_of R.seen self.new) }
    {
        if !self.unsure {
            return Ok(());
        }
        self.selector.persist(power)?;
        self.unsure = false;
        Ok(())
    }

    /// Writes the table into the copy that is not selected, and persists it: 3,074 writing steps.
    fn put_table<P: Power>(&mut self, power: &mut P, tree: &Tree) -> Result<(), DeviceFault>
        requires { unsure_of self.old ≡ false }
        ensures words { OnOk result
            (words_of (seen_at (seens_of R.seen self.new) (suc (free_copy (word_of self.old))))
            ≡ table_words tree.now) }
        ensures sure { OnOk result
            (IsSure (seen_at (seens_of R.seen self.new) (suc (free_copy (word_of self.old))))) }
        ensures whole { IsTree tree.now.nodes tree.now.next }
        ensures word { word_of self.new ≡ word_of self.old }
        ensures settled { unsure_of self.new ≡ false }
        ensures does { IsTrue R.obeys_power → DoesPlaced
            (put_ops (free_copy (word_of self.old)) tree.now) result
            (P.asked power.old) (seens_of R.seen self.old)
            (P.asked power.new) (seens_of R.seen self.new) }
        ensures cause { HasOneCause
            (faults_of R.faults self.old) (faults_of R.faults self.new) result }
        ensures moments { MomentsOf IsImage
            (λ images. CanLoad (seens_of R.seen self.old) (loaded images))
            (P.asked power.old) (seens_of R.seen self.old)
            (P.asked power.new) (seens_of R.seen self.new) }
    {
        let free = self.free_copy();
        write_table(&mut self.tables[free], power, tree)
    }

    /// Selects the copy that is not selected, as the tree after a number of changes: two writing
    /// steps. The word and its persist are asked one by one, since a fault at either leaves the
    /// selector in doubt with another word.
    fn select<P: Power>(&mut self, power: &mut P, through: u64) -> Result<(), DeviceFault>
        requires low { through < 2 ^ 63 }
        requires settled { unsure_of self.old ≡ false }
        requires sure { IsSure
            (seen_at (seens_of R.seen self.old) (suc (free_copy (word_of self.old)))) }
        ensures settled { OnOk result (unsure_of self.new ≡ false) }
        ensures doubtful { OnErr result (unsure_of self.new ≡ true) }
        ensures does { IsTrue R.obeys_power → DoesPlaced
            (select_ops (word_for through (free_copy (word_of self.old)))) result
            (P.asked power.old) (seens_of R.seen self.old)
            (P.asked power.new) (seens_of R.seen self.new) }
        ensures selected { OnOk result (LoadsOnly (seens_of R.seen self.new) record {
          tree = table_in (words_of
              (seen_at (seens_of R.seen self.old) (suc (free_copy (word_of self.old)))));
          through = through;
        }) }
        ensures cause { HasOneCause
            (faults_of R.faults self.old) (faults_of R.faults self.new) result }
        ensures moments { StoreMoments record {
          tree = table_in (words_of
              (seen_at (seens_of R.seen self.old) (suc (free_copy (word_of self.old)))));
          through = through;
        }
            (P.asked power.old) (seens_of R.seen self.old)
            (P.asked power.new) (seens_of R.seen self.new) }
    {
        let word = through * 2 + self.free_copy() as u64;
        self.unsure = true;
        self.selector.write(power, 0, word)?;
        self.word = word;
        self.selector.persist(power)?;
        self.unsure = false;
        Ok(())
    }
}
