ghost use Rattle.std.specs.Prelude.{◌≡◌, true};

use cfs_file::{Bytes, NoMemory, Request, Span};
use cfs_tracker::{Step, Taken, Tile, Tracker, Work};
use std::alloc::Global;
use std::process::Abort;
use std::test::Fail;

/// The slots of a request, those of one in doubt, and the blocks are numbers here.
type Plain = Tracker<u32, u32, u32>;

/// A write of so many bytes.
fn write(alloc: Global, offset: u64, count: usize) -> Result<Request, NoMemory> {
    let mut bytes = Bytes::new(alloc);
    bytes.resize(count as u64)?;
    Ok(Request::Write { offset, bytes })
}

/// Tags a block of the file, if it may be tagged.
fn tag(tracker: &mut Plain, block: u64, home: u32) {
    if tracker.is_bare(block) {
        tracker.tagged(block, home, true);
    }
}

/// Admits a request, and answers its place; 0 where it may not be admitted.
fn admit(tracker: &mut Plain, request: &Request, slots: u32) -> Result<u64, NoMemory> {
    tracker.reserve()?;
    if !tracker.may_admit(request) || tracker.count() > 1000 {
        return Ok(0);
    }
    Ok(tracker.admit(request, 7, slots))
}

/// Admits a read, and answers its place and its span.
fn admit_read(tracker: &mut Plain, offset: u64, count: u64) -> Result<(u64, Span), NoMemory> {
    tracker.reserve()?;
    if tracker.count() > 1000 {
        return Ok((0, Span::Nothing));
    }
    let reading = tracker.admit_read(&Request::Read { offset, count });
    Ok((reading.place, reading.span))
}

/// Dispatches a place; none where no job may take it.
fn dispatch(tracker: &mut Plain, place: u64) -> Option<Taken<u32, u32>> {
    match tracker.step(place) {
        Step::Takes { first, second } => {
            if tracker.are_still(first, second) {
                Some(tracker.dispatch(place, first, second))
            } else {
                None
            }
        }
        Step::NotWaiting | Step::NotYet(_) => None,
    }
}

/// The block's number in the file and its home, both 1000 where there is none.
fn numbers(tile: &Option<Tile<u32>>) -> (u64, u32) {
    match tile {
        Some(tile) => (tile.block, tile.home),
        None => (1000, 1000),
    }
}

/// Retires a place, if it is the last of its jobs; else more is to come.
fn finish(tracker: &mut Plain, place: u64, taken: Taken<u32, u32>) -> bool {
    let Taken {
        slots,
        first,
        second,
    } = taken;
    if !tracker.is_out(place, &first, &second) {
        return false;
    }
    if tracker.is_last(place) {
        tracker.retired(place, first, second);
        true
    } else {
        tracker.more(place, slots, first, second);
        false
    }
}

/// Marks the next place that a later one covers, and answers it; 0 where there is none.
fn mark(tracker: &mut Plain, by: u64, after: u64) -> u64 {
    let Some(place) = tracker.next_mark(by, after) else {
        return 0;
    };
    let Some(slots) = tracker.take_waiting(place) else {
        return 0;
    };
    if tracker.is_marking_by(place, by) {
        tracker.marked(place, by, slots, true);
    }
    place
}

/// Serves a read that waits for nothing.
fn serve(tracker: &mut Plain, place: u64) -> bool {
    if tracker.read(place).is_none() || tracker.read_blocker(place).is_some() {
        return false;
    }
    tracker.served(place);
    true
}

/// A write, a read of its bytes and a write that covers both: the first is dispatched before the
/// read is served, and the last waits for both. A later write then covers the last.
fn one_after_another(alloc: Global, rt: &impl Abort) -> Result<(), NoMemory> {
    let mut tracker: Plain = Tracker::new(alloc)?;
    let ten = write(alloc, 0, 10)?;
    assert_eq!(rt; admit(&mut tracker, &ten, 1)?, 0);
    tag(&mut tracker, 0, 100);
    assert_eq!(rt; admit(&mut tracker, &ten, 1)?, 1);
    assert_eq!(rt;
        admit_read(&mut tracker, 5, 100)?,
        (2, Span::Range { from: 5, to: 10 })
    );
    assert_eq!(rt; admit(&mut tracker, &ten, 3)?, 3);
    assert_eq!(rt; tracker.next_mark(3, 0), None);
    assert_eq!(rt; tracker.read_blocker(2), Some(1));
    assert_eq!(rt; tracker.step(3), Step::NotYet(1));
    tracker.note_passed(1);
    tracker.note_passed(1);
    assert_eq!(rt;
        tracker.next_work(0),
        Some(Work {
            place: 1,
            is_noop: false,
            read_waits: true,
            passed: 2
        })
    );
    let Some(taken) = dispatch(&mut tracker, 1) else {
        assert!(rt; false);
        return Ok(());
    };
    assert_eq!(rt; taken.slots, 1);
    assert_eq!(rt; numbers(&taken.first), (0, 100));
    assert_eq!(rt; numbers(&taken.second), (1000, 1000));
    assert_eq!(rt; tracker.step(1), Step::NotWaiting);
    assert_eq!(rt; tracker.read_blocker(2), Some(1));
    assert_eq!(rt; tracker.size_after(1), 10);
    assert!(rt; finish(&mut tracker, 1, taken));
    assert_eq!(rt; tracker.size(), (10, true));
    assert_eq!(rt; tracker.step(3), Step::NotYet(2));
    assert!(rt; serve(&mut tracker, 2));
    assert!(rt; !serve(&mut tracker, 2));
    assert_eq!(rt; admit(&mut tracker, &ten, 4)?, 4);
    assert_eq!(rt; mark(&mut tracker, 4, 0), 3);
    assert_eq!(rt; tracker.step(3), Step::NotWaiting);
    assert_eq!(rt;
        tracker.next_work(0),
        Some(Work {
            place: 3,
            is_noop: true,
            read_waits: false,
            passed: 0
        })
    );
    assert_eq!(rt; tracker.take_covered(3), Some(3));
    assert_eq!(rt; tracker.take_covered(3), None);
    Ok(())
}

/// A truncate of three mapped blocks takes two of them, and then asks for more. A block past the
/// size is given up once no entry has a position of it.
fn more_than_two_blocks(alloc: Global, rt: &impl Abort) -> Result<(), NoMemory> {
    let mut tracker: Plain = Tracker::stored(alloc, 12288)?;
    for block in 0..3 {
        tracker.bring(block, 100 + block as u32);
    }
    assert_eq!(rt; tracker.next_trim(), None);
    assert_eq!(rt;
        admit(&mut tracker, &Request::Truncate { length: 0 }, 1)?,
        1
    );
    let Some(taken) = dispatch(&mut tracker, 1) else {
        assert!(rt; false);
        return Ok(());
    };
    assert_eq!(rt; numbers(&taken.first), (0, 100));
    assert_eq!(rt; numbers(&taken.second), (1, 101));
    assert!(rt; !finish(&mut tracker, 1, taken));
    assert_eq!(rt; tracker.size(), (12288, true));
    let Some(taken) = dispatch(&mut tracker, 1) else {
        assert!(rt; false);
        return Ok(());
    };
    assert_eq!(rt; numbers(&taken.first), (2, 102));
    assert_eq!(rt; tracker.next_trim(), None);
    assert!(rt; finish(&mut tracker, 1, taken));
    assert_eq!(rt; tracker.size(), (0, true));
    assert_eq!(rt; tracker.next_trim(), Some(0));
    assert_eq!(rt; tracker.take_block(0), Some(100));
    assert_eq!(rt; tracker.next_trim(), Some(1));
    assert!(rt; tracker.is_in_use());
    tracker.untagged(0, None);
    assert_eq!(rt; tracker.next_kept(), Some(1));
    assert_eq!(rt; tracker.take_block(1), Some(101));
    tracker.untagged(1, None);
    assert!(rt; !empty(&mut tracker));
    assert_eq!(rt; tracker.take_block(2), Some(102));
    tracker.untagged(2, None);
    assert!(rt; empty(&mut tracker));
    assert_eq!(rt; tracker.count(), 0);
    Ok(())
}

/// Empties a tracker, if nothing uses it and no block is left.
fn empty(tracker: &mut Plain) -> bool {
    if tracker.is_in_use() || tracker.next_kept().is_some() {
        return false;
    }
    tracker.emptied();
    true
}

/// Admits a write of so many bytes, and answers its place; 0 where it may not be admitted.
fn admit_write(
    alloc: Global,
    tracker: &mut Plain,
    offset: u64,
    count: usize,
) -> Result<u64, NoMemory> {
    let change = write(alloc, offset, count)?;
    admit(tracker, &change, 1)
}

/// Ten changes apart from one another are out; one more waits for the last of them.
fn behind_ten_jobs(alloc: Global, rt: &impl Abort) -> Result<(), NoMemory> {
    let mut tracker: Plain = Tracker::new(alloc)?;
    for block in 0..10 {
        tag(&mut tracker, block, 7);
        let place = admit_write(alloc, &mut tracker, 4096 * block, 4096)?;
        assert_eq!(rt; place, block + 1);
    }
    assert_eq!(rt; admit_write(alloc, &mut tracker, 4096 * 9 + 4000, 96)?, 11);
    let mut last = None;
    for place in 1..11 {
        last = dispatch(&mut tracker, place);
    }
    assert_eq!(rt; tracker.next_work(0), None);
    let Some(taken) = last else {
        assert!(rt; false);
        return Ok(());
    };
    assert!(rt; finish(&mut tracker, 10, taken));
    assert_eq!(rt;
        tracker.next_work(0),
        Some(Work {
            place: 11,
            is_noop: false,
            read_waits: false,
            passed: 0
        })
    );
    Ok(())
}

#[test]
fn a_change_waits_for_what_is_before_it(rt: HostRuntime) -> Result<(), Fail> {
    one_after_another(rt.alloc(), &rt)?;
    Ok(())
}

#[test]
fn a_change_waits_behind_many_jobs(rt: HostRuntime) -> Result<(), Fail> {
    behind_ten_jobs(rt.alloc(), &rt)?;
    Ok(())
}

#[test]
fn a_job_takes_two_blocks(rt: HostRuntime) -> Result<(), Fail> {
    more_than_two_blocks(rt.alloc(), &rt)?;
    Ok(())
}
