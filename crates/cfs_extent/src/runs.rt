ghost use Rattle.std.specs.Bool.{OnFalse, OnTrue};
ghost use Rattle.std.specs.Prelude.{◌≡◌, ◌≢◌, ◌+◌, ◌-◌, ◌↔◌, ◌<◌, ◌≤◌, ◌++◌, ◌∷◌, [], All, Contains, IfSome, IfNone, IsTrue, OnOk, OnErr, Some, drop, insert, length, remove, slice_get, take, vec_capacity, vec_len};
ghost use Rattle.cfs_extent.specs.Runs.{AreAscending, AreRuns, EndsPast, IsLowest, StandsAt, StartsFrom, next_start, numbers_of};
ghost use Rattle.cfs_extent.specs.declared.run.Run.{Run as OneRun};

use crate::room::insert_within;
use crate::run::Run;
use crate::seat::seek;
use std::alloc::{AllocError, Global};
use std::marker::Model;

/// Ascending file blocks below 256, kept as runs of which no two touch.
#[derive(Debug, Drop)]
pub(crate) struct Runs {
    runs: Vec<Run>,
}

impl Model for Runs {
    ghost use Rattle.std.specs.Prelude.{vec_capacity};
    ghost use Rattle.cfs_extent.specs.Runs.{AreRuns, Numbers, numbers_of};

    ghost Value = { Numbers };

    ghost view = { λ r. record { list = numbers_of r.runs.items; room = vec_capacity r.runs } };

    ghost invariant = { λ r. AreRuns 0 r.runs.items };
}

/// Whether the run before an index ends where a file block begins.
fn touches_last(runs: &[Run], at: usize, block: u32) -> bool
    requires runs { AreRuns 0 runs.now }
    requires within { at ≤ length runs.now }
    ensures touches { IsTrue result ↔ (next_start 0 (take at runs.now) ≡ block + 1) }
    ensures there { OnTrue result (0 < at) }
{
    at > 0 && runs[at - 1].end() == block
}

/// Whether the run at an index begins behind a file block.
fn touches_next(runs: &[Run], at: usize, block: u32) -> bool
    requires block { block < 256 }
    requires past { StartsFrom (block + 1) (drop at runs.now) }
    ensures touches { OnTrue result (at < length runs.now) }
    ensures first { OnTrue result ((run : OneRun) → slice_get runs.now at ≡ Some run →
        run.first ≡ block + 1) }
    ensures apart { OnFalse result (StartsFrom (block + 2) (drop at runs.now)) }
{
    match runs.get(at) {
        Some(run) => run.first == block + 1,
        None => false,
    }
}

/// Puts a file block among runs that do not have it, at the index of the first run past it.
fn join(runs: &mut Vec<Run>, at: usize, block: u32)
    requires runs { AreRuns 0 runs.old.items }
    requires block { block < 256 }
    requires within { at ≤ vec_len runs.old }
    requires below { next_start 0 (take at runs.old.items) ≤ block + 1 }
    requires past { StartsFrom (block + 1) (drop at runs.old.items) }
    requires room { vec_len runs.old < vec_capacity runs.old }
    ensures runs { AreRuns 0 runs.new.items }
    ensures numbers { numbers_of runs.new.items ≡
        numbers_of (take at runs.old.items) ++ block ∷ numbers_of (drop at runs.old.items) }
    ensures room { vec_capacity runs.new ≡ vec_capacity runs.old }
{
    match (touches_last(runs, at, block), touches_next(runs, at, block)) {
        (true, true) => {
            let last = runs[at - 1];
            let next = runs[at];
            runs[at - 1] = Run {
                first: last.first,
                count: last.count + 1 + next.count,
            };
            runs.remove(at);
        }
        (true, false) => {
            let last = runs[at - 1];
            runs[at - 1] = Run {
                first: last.first,
                count: last.count + 1,
            };
        }
        (false, true) => {
            let next = runs[at];
            runs[at] = Run {
                first: block,
                count: next.count + 1,
            };
        }
        (false, false) => {
            let run = Run {
                first: block,
                count: 1,
            };
            insert_within(runs, at, run);
        }
    }
}

/// Takes a file block out of the run at an index, and answers how many of the run stand before it.
fn cut(runs: &mut Vec<Run>, at: usize, block: u32) -> usize
    requires runs { AreRuns 0 runs.old.items }
    requires there { at < vec_len runs.old }
    requires first { (run : OneRun) → slice_get runs.old.items at ≡ Some run → run.first ≤ block }
    requires past { EndsPast block (drop at runs.old.items) }
    requires room { length (numbers_of runs.old.items) ≤ vec_capacity runs.old }
    ensures runs { AreRuns 0 runs.new.items }
    ensures there { StandsAt (numbers_of runs.old.items)
        (length (numbers_of (take at runs.old.items)) + result) block }
    ensures numbers { numbers_of runs.new.items ≡ remove (numbers_of runs.old.items)
        (length (numbers_of (take at runs.old.items)) + result) }
    ensures room { vec_capacity runs.new ≡ vec_capacity runs.old }
{
    let run = runs[at];
    let before = block - run.first;
    let after = Run {
        first: block + 1,
        count: run.count - before - 1,
    };
    if before > 0 {
        runs[at] = Run {
            first: run.first,
            count: before,
        };
        if after.count > 0 {
            insert_within(runs, at + 1, after);
        }
    } else if after.count > 0 {
        runs[at] = after;
    } else {
        runs.remove(at);
    }
    before as usize
}

/// The index of a file block among those of all runs, and none exactly where no run has it.
fn place(runs: &[Run], block: u32) -> Option<usize>
    requires { AreRuns 0 runs.now }
    ensures there { IfSome result (λ index. StandsAt (numbers_of runs.now) index block) }
    ensures absent { IfNone result (All (λ other. other ≢ block) (numbers_of runs.now)) }
{
    let seat = seek(runs, block);
    let run = runs.get(seat.run)?;
    if block < run.first {
        return None;
    }
    Some(seat.before + (block - run.first) as usize)
}

/// The lowest file block of all runs that is not below `block`.
fn lowest(runs: &[Run], block: u32) -> Option<u32>
    requires { AreRuns 0 runs.now }
    ensures next { IfSome result (IsLowest (numbers_of runs.now) block) }
    ensures none { IfNone result (All (λ other. other < block) (numbers_of runs.now)) }
{
    let seat = seek(runs, block);
    let run = runs.get(seat.run)?;
    Some(block.max(run.first))
}

/// Adds a file block that no run has, and answers its index among all.
fn add_to(runs: &mut Vec<Run>, block: u32) -> usize
    requires runs { AreRuns 0 runs.old.items }
    requires block { block < 256 }
    requires absent { All (λ other. other ≢ block) (numbers_of runs.old.items) }
    requires room { length (numbers_of runs.old.items) < vec_capacity runs.old }
    ensures runs { AreRuns 0 runs.new.items }
    ensures within { result ≤ length (numbers_of runs.old.items) }
    ensures below { All (λ other. other < block) (take result (numbers_of runs.old.items)) }
    ensures numbers { numbers_of runs.new.items ≡
        insert (numbers_of runs.old.items) result block }
    ensures room { vec_capacity runs.new ≡ vec_capacity runs.old }
{
    let seat = seek(runs, block);
    join(runs, seat.run, block);
    seat.before
}

/// Takes a file block away that some run has, and answers the index that it had among all.
fn take_from(runs: &mut Vec<Run>, block: u32) -> usize
    requires runs { AreRuns 0 runs.old.items }
    requires there { Contains (numbers_of runs.old.items) block }
    requires room { length (numbers_of runs.old.items) ≤ vec_capacity runs.old }
    ensures runs { AreRuns 0 runs.new.items }
    ensures there { StandsAt (numbers_of runs.old.items) result block }
    ensures numbers { numbers_of runs.new.items ≡ remove (numbers_of runs.old.items) result }
    ensures room { vec_capacity runs.new ≡ vec_capacity runs.old }
{
    let seat = seek(runs, block);
    seat.before + cut(runs, seat.run, block)
}

impl Runs {
    /// No file block, and room for none.
    pub(crate) fn new(alloc: Global) -> Self
        ensures { result.list ≡ [] }
    {
        Runs {
            runs: Vec::new(alloc),
        }
    }

    /// Makes room for at least so many runs. Without memory nothing changes.
    pub(crate) fn reserve(&mut self, runs: usize) -> Result<(), AllocError>
        ensures list { self.new.list ≡ self.old.list }
        ensures room { OnOk result (runs ≤ self.new.room) }
        ensures kept { self.old.room ≤ self.new.room }
    {
        let more = runs.saturating_sub(self.runs.len());
        self.runs.reserve(more)?;
        Ok(())
    }

    /// The index of a file block among all, and none exactly where it is not there.
    pub(crate) fn find(&self, block: u32) -> Option<usize>
        ensures there { IfSome result (λ index. StandsAt self.now.list index block) }
        ensures absent { IfNone result (All (λ other. other ≢ block) self.now.list) }
    {
        place(&self.runs, block)
    }

    /// The lowest file block that is not below `block`, and none exactly where there is none.
    pub(crate) fn next_from(&self, block: u32) -> Option<u32>
        ensures next { IfSome result (IsLowest self.now.list block) }
        ensures none { IfNone result (All (λ other. other < block) self.now.list) }
        ensures ascending { AreAscending self.now.list }
    {
        lowest(&self.runs, block)
    }

    /// Adds a file block that is not there, and answers its index among all.
    pub(crate) fn add(&mut self, block: u32) -> usize
        requires block { block < 256 }
        requires absent { All (λ other. other ≢ block) self.old.list }
        requires room { length self.old.list < self.old.room }
        ensures within { result ≤ length self.old.list }
        ensures below { All (λ other. other < block) (take result self.old.list) }
        ensures added { self.new ≡
            record self.old { list = insert self.old.list result block } }
    {
        add_to(&mut self.runs, block)
    }

    /// Takes a file block away that is there, and answers the index that it had among all.
    pub(crate) fn remove(&mut self, block: u32) -> usize
        requires there { Contains self.old.list block }
        requires room { length self.old.list ≤ self.old.room }
        ensures there { StandsAt self.old.list result block }
        ensures removed { self.new ≡ record self.old { list = remove self.old.list result } }
    {
        take_from(&mut self.runs, block)
    }
}
