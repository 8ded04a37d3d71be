ghost use Rattle.std.specs.Prelude.{◌≡◌, IfOk, length};
ghost use Rattle.cfs_dir.specs.Change.{IsTellable};
ghost use Rattle.cfs_journal.specs.Journals.{changes_of};

use cfs_dir::Change;
use cfs_journal::{AppendRefusal, GATE, Journal, PLACES, RECORD_WORDS};
use cfs_pmem::{MemRegion, Meter, Pick};
use std::alloc::{AllocError, Global};
use std::process::Abort;
use std::test::Fail;

fn removal(rec: u32) -> Change
    ensures { IsTellable result }
{
    let ino = u64::from(rec) + 1;
    Change::Remove { rec, ino }
}

fn blank(alloc: Global) -> Result<Journal<MemRegion>, AllocError> {
    let mut records = Vec::with_capacity(alloc, PLACES)?;
    for device in 0..64 {
        records.push(MemRegion::new(alloc, device, vec![in alloc; 0; 16]?)?)?;
    }
    Journal::blank(alloc, records)
}

/// Whether the record at its place has this number and tells this removal.
fn stands(records: &[MemRegion], number: u64, rec: u32) -> bool {
    let place = (number.saturating_sub(1) % 64) as usize;
    match records.get(place) {
        Some(region) => match region.words() {
            [gate, words @ ..] => *gate == number && words == removal(rec).words().as_slice(),
            [] => false,
        },
        None => false,
    }
}

/// The records that a crash leaves.
fn after_crash(journal: Journal<MemRegion>, k: u64) -> Vec<MemRegion> {
    let mut records = journal.into_parts();
    let mut pick = Pick::new(k);
    for region in records.iter_mut() {
        region.crash(&mut pick);
    }
    records
}

/// Appends the removals of the first records, so many, of which each takes the next number.
fn append_first(rt: &impl Abort, journal: &mut Journal<MemRegion>, meter: &mut Meter, count: u32) {
    for rec in 0..count {
        assert!(rt; !journal.is_full());
        let appended = journal.append(meter, &removal(rec));
        assert_eq!(rt; appended, Ok(u64::from(rec) + 1));
    }
}

/// Whether the journal replays the removals of the first 64 records.
fn replays_all(alloc: Global, journal: &Journal<MemRegion>) -> Result<bool, AllocError> {
    let changes = journal.replay(alloc)?;
    let wanted = (0..64).map(removal);
    Ok(changes.len() == 64 && changes.iter().copied().eq(wanted))
}

fn run_full(
    rt: &impl Abort,
    alloc: Global,
    journal: &mut Journal<MemRegion>,
    meter: &mut Meter,
) -> Result<(), Fail> {
    append_first(rt, journal, meter, 64);
    assert!(rt; journal.is_full());
    let refused = journal.append(meter, &removal(64));
    assert_eq!(rt; refused, Err(AppendRefusal::Full));
    assert!(rt; replays_all(alloc, journal)?);
    Ok(())
}

#[test]
fn sixty_four_records_are_all(rt: HostRuntime) -> Result<(), Fail> {
    let mut meter = Meter::calm(rt.alloc());
    let mut journal = blank(rt.alloc())?;
    run_full(&rt, rt.alloc(), &mut journal, &mut meter)?;
    let records = journal.into_parts();
    assert!(rt; stands(&records, 1, 0) && stands(&records, 64, 63));
    Ok(())
}

/// An append of a removal that stops at its `n`th writing step.
fn append_with_stop(
    journal: &mut Journal<MemRegion>,
    meter: &mut Meter,
    n: u64,
    rec: u32,
) -> Result<u64, AppendRefusal> {
    meter.stop(n.max(1));
    let appended = journal.append(meter, &removal(rec));
    meter.revive();
    appended
}

/// Whether the first of two appends answers 1, and the second, which stops at its `n`th writing
/// step, succeeds, and whether a crash leaves the record of each.
fn left_by_two(alloc: Global, n: u64, k: u64) -> Result<([bool; 2], [bool; 2]), AllocError> {
    let mut meter = Meter::calm(alloc);
    let mut journal = blank(alloc)?;
    let first = journal.append(&mut meter, &removal(1)) == Ok(1);
    let second = append_with_stop(&mut journal, &mut meter, n, 2).is_ok();
    let records = after_crash(journal, k);
    let left = [stands(&records, 1, 1), stands(&records, 2, 2)];
    Ok(([first, second], left))
}

// The record stands once its gate is written, step 17, if the crash keeps what was present, and
// once that is persisted, step 18, in any case.
#[test]
fn a_stop_leaves_the_record_whole_or_not_there(rt: HostRuntime) -> Result<(), Fail> {
    for n in 1..20 {
        for (k, there) in [(0, n > 18), (1, n > 17)] {
            let wanted = ([true, n > 18], [true, there]);
            assert_eq!(rt;
                left_by_two(rt.alloc(), n, k)?,
                wanted,
                "stop {n}, pick {k}"
            );
        }
    }
    Ok(())
}

fn is_replay_empty(alloc: Global, journal: &Journal<MemRegion>) -> Result<bool, AllocError> {
    Ok(journal.replay(alloc)?.is_empty())
}

/// The removal whose record a crash leaves in the first place.
fn first_left(journal: Journal<MemRegion>, k: u64) -> Option<u32> {
    let records = after_crash(journal, k);
    [7, 9].into_iter().find(|rec| stands(&records, 1, *rec))
}

/// An append that a fault leaves in doubt, and one behind it that stops at its `n`th writing step:
/// whether the first fails, the second succeeds and the journal has no change, and the removal
/// whose record a crash leaves in the first place.
fn left_by_doubt(alloc: Global, n: u64, k: u64) -> Result<([bool; 3], Option<u32>), AllocError> {
    let mut meter = Meter::calm(alloc);
    let mut journal = blank(alloc)?;
    let refused = append_with_stop(&mut journal, &mut meter, 18, 7);
    let appended = append_with_stop(&mut journal, &mut meter, n, 9);
    let is_empty = is_replay_empty(alloc, &journal)?;
    let fails = refused == Err(AppendRefusal::Failed);
    Ok(([fails, appended.is_ok(), is_empty], first_left(journal, k)))
}

// The gate of the record in doubt is closed in two steps, and then the next one takes its place in
// eighteen.
#[test]
fn a_record_in_doubt_is_closed_first(rt: HostRuntime) -> Result<(), Fail> {
    for (n, k, left) in [
        (1, 0, None),
        (1, 1, Some(7)),
        (2, 1, None),
        (19, 1, None),
        (20, 0, None),
        (20, 1, Some(9)),
        (21, 0, Some(9)),
    ] {
        let wanted = ([true, n > 20, n < 21], left);
        assert_eq!(rt;
            left_by_doubt(rt.alloc(), n, k)?,
            wanted,
            "stop {n}, pick {k}"
        );
    }
    Ok(())
}

/// How many changes the journal has, and whether the only one is the removal of this record.
fn replayed(
    alloc: Global,
    journal: &Journal<MemRegion>,
    rec: u32,
) -> Result<(usize, bool), AllocError>
    ensures { IfOk result (λ told. told.0 ≡ length (changes_of journal.now)) }
{
    let changes = journal.replay(alloc)?;
    let is_only = changes.as_slice() == [removal(rec)].as_slice();
    Ok((changes.len(), is_only))
}

fn run_cut(
    rt: &impl Abort,
    alloc: Global,
    journal: &mut Journal<MemRegion>,
    meter: &mut Meter,
) -> Result<(), Fail> {
    append_first(rt, journal, meter, 3);
    let last = journal.last();
    assert_eq!(rt; last, 3);
    let (count, _) = replayed(alloc, journal, 2)?;
    assert_eq!(rt; count, 3);
    journal.cut(2);
    assert_eq!(rt; replayed(alloc, journal, 2)?, (1, true));
    assert_eq!(rt; journal.append(meter, &removal(3)), Ok(4));
    Ok(())
}

#[test]
fn a_cut_makes_room(rt: HostRuntime) -> Result<(), Fail> {
    let mut meter = Meter::calm(rt.alloc());
    let mut journal = blank(rt.alloc())?;
    run_cut(&rt, rt.alloc(), &mut journal, &mut meter)
}

#[test]
fn bounds(rt: HostRuntime) {
    assert_eq!(rt; (PLACES, RECORD_WORDS, GATE), (64, 16, 0));
}
