//! The journal and its calls.
ghost use Rattle.std.specs.Prelude.{◌≡◌, ◌≢◌, ◌↔◌, ◌⊎◌, ◌+◌, ◌-◌, ◌<◌, ◌≤◌, ◌^◌, ◌==◌, [], ◌∷◌, ◌++◌, length, drop, map, IsTrue, Some, None, Ok, Err, IfOk, OnOk, OnErr, vec_capacity, vec_len};
ghost use Rattle.std.proofs.Math.ListN.{set};
ghost use Rattle.cfs_dir.specs.Change.{IsTellable};
ghost use Rattle.cfs_pmem.specs.Faults.{HasCause};
ghost use Rattle.cfs_pmem.specs.Images.{IsImage};
ghost use Rattle.cfs_pmem.specs.Objects.{seen_at, MomentsOf};
ghost use Rattle.cfs_pmem.specs.WordOps.{DoesWords};
ghost use Rattle.cfs_journal.specs.Appends.{Appends, closing_ops};
ghost use Rattle.cfs_journal.specs.Distinct.{distinct_prop, tellable_prop};
ghost use Rattle.cfs_journal.specs.Records.{record_ops};
ghost use Rattle.cfs_journal.specs.Standing.{AreBlank, Gives, GivesEither, Standing};
ghost use Rattle.std.proofs.Props.{props};

use crate::append_refusal::AppendRefusal;
use crate::record::{GATE, write_record};
use cfs_dir::Change;
use cfs_pmem::{DeviceFault, Power, Region, set_word};
use std::alloc::{AllocError, Global};

/// How many records the journal has room for.
pub const PLACES: usize = 64;

/// Drops the first `count` changes.
fn forget(changes: &mut Vec<Change>, count: usize)
    requires { count ≤ vec_len changes.old }
    ensures rest { changes.new.items ≡ drop count changes.old.items }
    ensures room { vec_capacity changes.old ≤ vec_capacity changes.new }
{
    for _ in 0..count {
        changes.remove(0);
    }
}

/// The changes of the tree since the last checkpoint, in the records of 64 regions.
#[derive(Drop)]
pub struct Journal<R: Region> {
    records: Vec<R>,
    changes: Vec<Change>,
    /// The number of the last checkpoint.
    through: u64,
    /// The change of the record behind the last, if a fault left that in doubt.
    doubt: Option<Change>,
    pub ghost standing: { Standing through changes.items doubt
        (map R.seen records.items) } by { Prim.hlevel (distinct_prop, tellable_prop, props) },
    pub ghost room: { 64 ≤ vec_capacity changes },
}

impl<R: Region + Drop> Journal<R> {
    ghost use Rattle.cfs_journal.specs.Journals.{changes_of, doubt_of, faults_at, next_number, next_place, regions_of, through_of};

    /// Whether all records stand.
    pub fn is_full(&self) -> bool
        ensures { result ≡ (length (changes_of self.now) == 64) }
    {
        self.changes.len() == PLACES
    }

    /// The number of the last record, or of the last checkpoint where there is none since.
    pub fn last(&self) -> u64
        ensures { result ≡ through_of self.now + length (changes_of self.now) }
    {
        self.through + self.changes.len() as u64
    }

    /// The journal of 64 regions that hold these changes behind the number `through`, the last of
    /// them durable too. Takes memory for all records.
    pub fn new(
        alloc: Global,
        records: Vec<R>,
        through: u64,
        changes: &[Change],
    ) -> Result<Journal<R>, AllocError>
        requires { Standing through changes.now None (map R.seen records.items) }
        ensures changes { IfOk result (λ journal. changes_of journal ≡ changes.now) }
        ensures through { IfOk result (λ journal. through_of journal ≡ through) }
        ensures settled { IfOk result (λ journal. doubt_of journal ≡ None) }
        ensures regions { IfOk result (λ journal. regions_of journal ≡ records.items) }
    {
        let mut room = Vec::with_capacity(alloc, PLACES)?;
        room.extend_from_slice(changes)?;
        Ok(Journal {
            records,
            changes: room,
            through,
            doubt: None,
        })
    }

    /// The journal of a new store: no change since checkpoint 0, in 64 regions of zeros. Takes
    /// memory for all records.
    pub fn blank(alloc: Global, records: Vec<R>) -> Result<Journal<R>, AllocError>
        requires { AreBlank (map R.seen records.items) }
        ensures changes { IfOk result (λ journal. changes_of journal ≡ []) }
        ensures through { IfOk result (λ journal. through_of journal ≡ 0) }
        ensures settled { IfOk result (λ journal. doubt_of journal ≡ None) }
        ensures regions { IfOk result (λ journal. regions_of journal ≡ records.items) }
    {
        Journal::new(alloc, records, 0, &[])
    }

    /// The 64 regions.
    pub fn into_parts(self) -> Vec<R>
        ensures { result.items ≡ regions_of self }
    {
        self.records
    }

    /// The changes since the last checkpoint.
    pub fn replay(&self, alloc: Global) -> Result<Vec<Change>, AllocError>
        ensures { IfOk result (λ changes. changes.items ≡ changes_of self.now) }
    {
        Vec::from_slice(alloc, self.changes.as_slice())
    }

    /// Appends a change: closes the gate of a record in doubt, writes the change behind the gate of
    /// the next record, persists it and opens the gate. Answers the record's number.
    /// Takes no memory.
    ///
    /// `Full` comes exactly where 64 records stand. After `Failed`, for a device fault, the change
    /// is in doubt, or the one that was so before: the next `append` closes its gate first.
    pub fn append<P: Power>(&mut self, power: &mut P, change: &Change) -> Result<u64, AppendRefusal>
        requires { IsTellable change.now }
        ensures full { (result ≡ Err AppendRefusal.Full) ↔ (length (changes_of self.old) ≡ 64) }
        ensures unchanged { result ≡ Err AppendRefusal.Full →
            (self.new ≡ self.old) × (P.asked power.new ≡ P.asked power.old) }
        ensures number { IfOk result (λ number. number ≡ next_number self.old) }
        ensures appended { OnOk result
            (changes_of self.new ≡ changes_of self.old ++ change.now ∷ []) }
        ensures settled { OnOk result (doubt_of self.new ≡ None) }
        ensures refused { OnErr result (changes_of self.new ≡ changes_of self.old) }
        ensures doubt { OnErr result
            ((doubt_of self.new ≡ doubt_of self.old) ⊎ (doubt_of self.new ≡ Some change.now)) }
        ensures through { through_of self.new ≡ through_of self.old }
        // The steps, in order, and which change is in doubt after each failure.
        ensures does { IsTrue R.obeys_power → result ≢ Err AppendRefusal.Full →
            Appends (next_number self.old) change.now (doubt_of self.old) (doubt_of self.new) result
            (P.asked power.old) (seen_at (map R.seen (regions_of self.old)) (next_place self.old))
            (P.asked power.new) (seen_at (map R.seen (regions_of self.new)) (next_place self.old)) }
        ensures others { map R.seen (regions_of self.new) ≡
            set (map R.seen (regions_of self.old)) (next_place self.old)
            (seen_at (map R.seen (regions_of self.new)) (next_place self.old)) }
        ensures cause { result ≢ Err AppendRefusal.Full → HasCause
            (faults_at R.faults (next_place self.old) (regions_of self.old))
            (faults_at R.faults (next_place self.old) (regions_of self.new)) result }
        // At each moment the records give the changes, or these and the one that was in doubt, or
        // these and this one.
        ensures moments { MomentsOf IsImage
            (GivesEither (through_of self.old) (changes_of self.old)
            (doubt_of self.old) (Some change.now))
            (P.asked power.old) (map R.seen (regions_of self.old))
            (P.asked power.new) (map R.seen (regions_of self.new)) }
    {
        if self.is_full() {
            return Err(AppendRefusal::Full);
        }
        if self.settle(power).is_err() {
            return Err(AppendRefusal::Failed);
        }
        if self.write_next(power, change).is_err() {
            return Err(AppendRefusal::Failed);
        }
        Ok(self.last())
    }

    /// Forgets the changes up to the number of a checkpoint, which writes nothing: their gates are
    /// at most that number from then on.
    pub fn cut(&mut self, through: u64)
        requires from { through_of self.old ≤ through }
        requires most { through ≤ through_of self.old + length (changes_of self.old) }
        requires low { through < 2 ^ 63 }
        ensures changes { changes_of self.new ≡
            drop (through - through_of self.old) (changes_of self.old) }
        ensures through { through_of self.new ≡ through }
        ensures doubt { doubt_of self.new ≡ doubt_of self.old }
        ensures regions { regions_of self.new ≡ regions_of self.old }
    {
        forget(&mut self.changes, (through - self.through) as usize);
        self.through = through;
    }

    /// Closes the gate of the record in doubt, if there is one: two writing steps, or none.
    fn settle<P: Power>(&mut self, power: &mut P) -> Result<(), DeviceFault>
        ensures settled { OnOk result (doubt_of self.new ≡ None) }
        ensures doubtful { OnErr result (doubt_of self.new ≡ doubt_of self.old) }
        ensures changes { changes_of self.new ≡ changes_of self.old }
        ensures through { through_of self.new ≡ through_of self.old }
        ensures does { IsTrue R.obeys_power → DoesWords
            (closing_ops (doubt_of self.old)) result
            (P.asked power.old) (seen_at (map R.seen (regions_of self.old)) (next_place self.old))
            (P.asked power.new) (seen_at (map R.seen (regions_of self.new)) (next_place self.old)) }
        ensures others { map R.seen (regions_of self.new) ≡
            set (map R.seen (regions_of self.old)) (next_place self.old)
            (seen_at (map R.seen (regions_of self.new)) (next_place self.old)) }
        ensures cause { HasCause
            (faults_at R.faults (next_place self.old) (regions_of self.old))
            (faults_at R.faults (next_place self.old) (regions_of self.new)) result }
        // At each moment the records give the changes, or these and the one in doubt.
        ensures moments { MomentsOf IsImage
            (Gives (through_of self.old) (changes_of self.old) (doubt_of self.old))
            (P.asked power.old) (map R.seen (regions_of self.old))
            (P.asked power.new) (map R.seen (regions_of self.new)) }
    {
        if self.doubt.is_none() {
            return Ok(());
        }
        let place = (self.last() % PLACES as u64) as usize;
        set_word(&mut self.records[place], power, GATE, 0)?;
        self.doubt = None;
        Ok(())
    }

    /// Writes the change into the next record: eighteen writing steps, or as many as there are up
    /// to the one that fails. After a fault the change is in doubt.
    fn write_next<P: Power>(&mut self, power: &mut P, change: &Change) -> Result<(), DeviceFault>
        requires tellable { IsTellable change.now }
        requires room { length (changes_of self.old) < 64 }
        requires settled { doubt_of self.old ≡ None }
        ensures appended { OnOk result
            (changes_of self.new ≡ changes_of self.old ++ change.now ∷ []) }
        ensures sure { OnOk result (doubt_of self.new ≡ None) }
        ensures refused { OnErr result (changes_of self.new ≡ changes_of self.old) }
        ensures doubtful { OnErr result (doubt_of self.new ≡ Some change.now) }
        ensures through { through_of self.new ≡ through_of self.old }
        ensures does { IsTrue R.obeys_power → DoesWords
            (record_ops (next_number self.old) change.now) result
            (P.asked power.old) (seen_at (map R.seen (regions_of self.old)) (next_place self.old))
            (P.asked power.new) (seen_at (map R.seen (regions_of self.new)) (next_place self.old)) }
        ensures others { map R.seen (regions_of self.new) ≡
            set (map R.seen (regions_of self.old)) (next_place self.old)
            (seen_at (map R.seen (regions_of self.new)) (next_place self.old)) }
        ensures cause { HasCause
            (faults_at R.faults (next_place self.old) (regions_of self.old))
            (faults_at R.faults (next_place self.old) (regions_of self.new)) result }
        // At each moment the records give the changes, or these and this one.
        ensures moments { MomentsOf IsImage
            (Gives (through_of self.old) (changes_of self.old) (Some change.now))
            (P.asked power.old) (map R.seen (regions_of self.old))
            (P.asked power.new) (map R.seen (regions_of self.new)) }
    {
        let last = self.last();
        let place = (last % PLACES as u64) as usize;
        match write_record(&mut self.records[place], power, last + 1, change) {
            Ok(()) => {
                let Ok(()) = self.changes.push(*change) else {
                    unreachable!()
                };
                Ok(())
            }
            Err(fault) => {
                self.doubt = Some(*change);
                Err(fault)
            }
        }
    }
}
