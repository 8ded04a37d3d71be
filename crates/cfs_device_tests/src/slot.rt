ghost use Rattle.std.specs.Prelude.{IfOk};
ghost use Rattle.cfs_pmem.specs.Images.{IsSure};
ghost use Rattle.cfs_slot.specs.Regions.{of_staged};

use cfs_file::{Bytes, Request};
use cfs_pmem::{MemRegion, Meter, Pick, Region};
use cfs_slot::{Doubt, Found, Live, Slot, Staged, found, is_stageable};
use cfs_vec::FixedVec;
use std::alloc::{AllocError, Global};
use std::test::Fail;

const INO: u64 = 2;

const PLACE: u64 = 7;

const GRANT: u64 = 9;

fn empty(alloc: Global) -> Result<Slot<MemRegion>, AllocError> {
    Ok(Slot::new(MemRegion::new(alloc, 323, vec![in alloc; 0; 518]?)?))
}

fn write(alloc: Global, offset: u64, text: &[u8]) -> Result<Request, Fail> {
    let bytes = Bytes::from_slice(alloc, text)?;
    Ok(Request::Write { offset, bytes })
}

fn append(alloc: Global, text: &[u8]) -> Result<Request, Fail> {
    let bytes = Bytes::from_slice(alloc, text)?;
    Ok(Request::Append { bytes })
}

fn stage<R: Region + Drop>(
    slot: Slot<R>,
    meter: &mut Meter,
    request: &Request,
) -> Result<Staged<R>, Slot<R>>
    ensures { IfOk result (λ staged. IsSure (R.seen (of_staged staged))) }
{
    if is_stageable(request) {
        slot.stage(meter, INO, request, GRANT)
    } else {
        Err(slot)
    }
}

/// The region of the head, which stands first.
fn head(mut regions: FixedVec<MemRegion, 16>) -> Option<MemRegion> {
    regions.reverse();
    regions.pop()
}

/// The slot of a request that takes one alone.
fn alone(mut slots: FixedVec<Slot<MemRegion>, 16>) -> Option<MemRegion> {
    slots.reverse();
    Some(slots.pop()?.into_parts())
}

/// Sets the offset and opens the gate.
fn open_at(
    mut staged: Staged<MemRegion>,
    meter: &mut Meter,
    offset: u64,
) -> Option<Live<MemRegion>> {
    if staged.set_offset(meter, offset).is_err() {
        return None;
    }
    staged.open_gate(meter, PLACE).ok()
}

/// A slot after so many of these calls: stage, set the offset, open the gate, mark, close the gate.
fn after(staged: Staged<MemRegion>, meter: &mut Meter, calls: u32) -> Option<MemRegion> {
    if calls == 1 {
        return head(staged.into_parts());
    }
    let mut live = open_at(staged, meter, 77)?;
    if calls == 3 {
        return head(live.into_parts());
    }
    if live.mark_noop(meter).is_err() {
        return None;
    }
    if calls == 4 {
        return head(live.into_parts());
    }
    alone(live.close_gate(meter).ok()?)
}

/// A slot whose request was given up after its offset was set.
fn given_up(mut staged: Staged<MemRegion>, meter: &mut Meter) -> Option<MemRegion> {
    let _ = staged.set_offset(meter, 77);
    alone(staged.cancel())
}

/// The slot of this request after so many calls.
fn region_after(alloc: Global, request: &Request, calls: u32) -> Result<MemRegion, Fail> {
    let mut meter = Meter::calm(alloc);
    let staged = stage(empty(alloc)?, &mut meter, request)
        .ok()
        .ok_or("not staged")?;
    if calls == 2 {
        return Ok(given_up(staged, &mut meter).ok_or("no slot")?);
    }
    Ok(after(staged, &mut meter, calls).ok_or("refused")?)
}

/// Whether a region's first words are these.
fn begins_with(region: &MemRegion, words: &[u64]) -> bool {
    region.words().get(..words.len()) == Some(words)
}

#[test]
fn a_request_stands_in_its_words(rt: HostRuntime) -> Result<(), Fail> {
    let hello = write(rt.alloc(), 5, b"hello")?;
    let digits = append(rt.alloc(), b"123456789")?;
    let cut = Request::Truncate { length: 70 };
    for (request, calls, words) in [
        (&hello, 1, [0, 0, 2, 5, 65_541, 9, 0x6f_6c6c_6568, 0]),
        (
            &digits,
            1,
            [0, 0, 2, 0, 65_545, 9, 0x3837_3635_3433_3231, 0x39],
        ),
        (
            &digits,
            2,
            [0, 0, 2, 77, 65_545, 9, 0x3837_3635_3433_3231, 0x39],
        ),
        (
            &digits,
            3,
            [7, 0, 2, 77, 65_545, 9, 0x3837_3635_3433_3231, 0x39],
        ),
        (
            &digits,
            4,
            [7, 1, 2, 77, 65_545, 9, 0x3837_3635_3433_3231, 0x39],
        ),
        (&cut, 1, [0, 0, 2, 70, 131_072, 9, 0, 0]),
        (&cut, 5, [0, 1, 2, 77, 131_072, 9, 0, 0]),
    ] {
        let region = region_after(rt.alloc(), request, calls)?;
        assert!(rt; begins_with(&region, &words), "after {calls}");
    }
    Ok(())
}

/// A slot in which a request was staged and opened with a stop at the nth writing step.
fn stopped(
    slot: Slot<MemRegion>,
    meter: &mut Meter,
    request: &Request,
    n: u64,
) -> Option<MemRegion> {
    meter.stop(n.max(1));
    match stage(slot, meter, request) {
        Ok(staged) => match staged.open_gate(meter, PLACE) {
            Ok(live) => head(live.into_parts()),
            Err(doubt) => head(doubt.into_parts()),
        },
        Err(slot) => Some(slot.into_parts()),
    }
}

/// Whether a crash of this pick leaves these first words.
fn leaves(mut region: MemRegion, k: u64, words: &[u64]) -> bool {
    region.crash(&mut Pick::new(k));
    begins_with(&region, words)
}

/// The same of a slot's first seven words.
fn words_left(region: MemRegion, k: u64, words: [u64; 7]) -> bool {
    leaves(region, k, &words)
}

const EMPTY: [u64; 7] = [0, 0, 0, 0, 0, 0, 0];

const STAGED: [u64; 7] = [0, 0, 2, 5, 65_541, 9, 0x6f_6c6c_6568];

const OPEN: [u64; 7] = [7, 0, 2, 5, 65_541, 9, 0x6f_6c6c_6568];

// The stage makes seven steps and the gate two. What a crash leaves that keeps what was durable,
// and one that keeps what was present.
#[test]
fn a_stop_leaves_the_gate_closed_or_the_request_whole(rt: HostRuntime) -> Result<(), Fail> {
    let hello = write(rt.alloc(), 5, b"hello")?;
    for (n, durable, present) in [
        (1, EMPTY, EMPTY),
        (2, EMPTY, EMPTY),
        (3, EMPTY, [0, 0, 2, 0, 0, 0, 0]),
        (4, EMPTY, [0, 0, 2, 5, 0, 0, 0]),
        (5, EMPTY, [0, 0, 2, 5, 65_541, 0, 0]),
        (6, EMPTY, [0, 0, 2, 5, 65_541, 9, 0]),
        (7, EMPTY, STAGED),
        (8, STAGED, STAGED),
        (9, STAGED, OPEN),
        (10, OPEN, OPEN),
    ] {
        for (k, words) in [(0, durable), (1, present)] {
            let mut meter = Meter::calm(rt.alloc());
            let region = stopped(empty(rt.alloc())?, &mut meter, &hello, n).ok_or("no slot")?;
            assert!(rt; words_left(region, k, words), "stop {n}, pick {k}");
        }
    }
    Ok(())
}

/// The calls that set one word of a slot that holds a request.
#[derive(Clone, Copy, Debug)]
enum Call {
    Offset,
    Mark,
    Close,
    Settle,
}

/// A slot after this call, with a stop at its nth writing step. A doubt is one whose gate was
/// written and not persisted.
fn refused(
    slot: Slot<MemRegion>,
    meter: &mut Meter,
    request: &Request,
    call: Call,
    n: u64,
) -> Option<MemRegion> {
    if let Call::Settle = call {
        return refused_settle(doubted(slot, meter, request)?, meter, n);
    }
    let Ok(staged) = stage(slot, meter, request) else {
        return None;
    };
    match call {
        Call::Offset => refused_offset(staged, meter, n),
        Call::Mark => refused_mark(staged.open_gate(meter, PLACE).ok()?, meter, n),
        Call::Close | Call::Settle => {
            refused_close(staged.open_gate(meter, PLACE).ok()?, meter, n)
        }
    }
}

fn refused_offset(mut staged: Staged<MemRegion>, meter: &mut Meter, n: u64) -> Option<MemRegion> {
    meter.stop(n.max(1));
    let _ = staged.set_offset(meter, 77);
    head(staged.into_parts())
}

fn refused_mark(mut live: Live<MemRegion>, meter: &mut Meter, n: u64) -> Option<MemRegion> {
    meter.stop(n.max(1));
    let _ = live.mark_noop(meter);
    head(live.into_parts())
}

fn refused_close(live: Live<MemRegion>, meter: &mut Meter, n: u64) -> Option<MemRegion> {
    meter.stop(n.max(1));
    match live.close_gate(meter) {
        Ok(slots) => alone(slots),
        Err(live) => head(live.into_parts()),
    }
}

fn refused_settle(doubt: Doubt<MemRegion>, meter: &mut Meter, n: u64) -> Option<MemRegion> {
    meter.stop(n.max(1));
    match doubt.settle(meter) {
        Ok(slots) => alone(slots),
        Err(doubt) => head(doubt.into_parts()),
    }
}

/// A slot whose gate was written, and whose persist was refused.
fn doubted(
    slot: Slot<MemRegion>,
    meter: &mut Meter,
    request: &Request,
) -> Option<Doubt<MemRegion>> {
    let Ok(staged) = stage(slot, meter, request) else {
        return None;
    };
    meter.stop(2);
    let opened = staged.open_gate(meter, PLACE);
    meter.revive();
    opened.err()
}

/// The same of the gate, the mark, the inode number and the offset.
fn fields_left(region: MemRegion, k: u64, fields: [u64; 4]) -> bool {
    leaves(region, k, &fields)
}

// What is left of the four fields, where a crash keeps what was durable and where it keeps what was
// present. Each call makes two steps: the word and the persist.
#[test]
fn a_refused_call_leaves_its_word_old_or_new(rt: HostRuntime) -> Result<(), Fail> {
    let hello = write(rt.alloc(), 5, b"hello")?;
    for (call, n, durable, present) in [
        (Call::Offset, 1, [0, 0, 2, 5], [0, 0, 2, 5]),
        (Call::Offset, 2, [0, 0, 2, 5], [0, 0, 2, 77]),
        (Call::Offset, 3, [0, 0, 2, 77], [0, 0, 2, 77]),
        (Call::Mark, 1, [7, 0, 2, 5], [7, 0, 2, 5]),
        (Call::Mark, 2, [7, 0, 2, 5], [7, 1, 2, 5]),
        (Call::Mark, 3, [7, 1, 2, 5], [7, 1, 2, 5]),
        (Call::Close, 1, [7, 0, 2, 5], [7, 0, 2, 5]),
        (Call::Close, 2, [7, 0, 2, 5], [0, 0, 2, 5]),
        (Call::Close, 3, [0, 0, 2, 5], [0, 0, 2, 5]),
        (Call::Settle, 1, [0, 0, 2, 5], [7, 0, 2, 5]),
        (Call::Settle, 2, [0, 0, 2, 5], [0, 0, 2, 5]),
        (Call::Settle, 3, [0, 0, 2, 5], [0, 0, 2, 5]),
    ] {
        let mut meter = Meter::calm(rt.alloc());
        let region = refused(empty(rt.alloc())?, &mut meter, &hello, call, n).ok_or("no slot")?;
        assert!(rt;
            fields_left(region, 0, durable),
            "{call:?}, stop {n}, durable"
        );
        meter.revive();
        let region = refused(empty(rt.alloc())?, &mut meter, &hello, call, n).ok_or("no slot")?;
        assert!(rt;
            fields_left(region, 1, present),
            "{call:?}, stop {n}, present"
        );
    }
    Ok(())
}

/// The slot of a doubt that is settled, once more if a stop at the nth step refused it.
fn settled(doubt: Doubt<MemRegion>, meter: &mut Meter, n: u64) -> Option<MemRegion> {
    meter.stop(n.max(1));
    match doubt.settle(meter) {
        Ok(slots) => alone(slots),
        Err(doubt) => {
            meter.revive();
            alone(doubt.settle(meter).ok()?)
        }
    }
}

#[test]
fn a_doubt_is_settled(rt: HostRuntime) -> Result<(), Fail> {
    for n in 1..4 {
        let mut meter = Meter::calm(rt.alloc());
        let doubt = doubted(
            empty(rt.alloc())?,
            &mut meter,
            &Request::Truncate { length: 3 },
        );
        let region = settled(doubt.ok_or("no doubt")?, &mut meter, n);
        assert!(rt;
            leaves(region.ok_or("not settled")?, 0, &[0, 0, 2, 3]),
            "refused at {n}"
        );
    }
    Ok(())
}

/// What recovery finds in a region.
fn found_in(mut region: MemRegion, meter: &mut Meter) -> Option<Found> {
    if region.words().len() == 518 {
        found(&mut region, meter).ok()
    } else {
        None
    }
}

#[test]
fn recovery_finds_the_fields(rt: HostRuntime) -> Result<(), Fail> {
    let request = append(rt.alloc(), b"abc")?;
    for (calls, gate, mark) in [(2, 0, 0), (3, PLACE, 0), (4, PLACE, 1), (5, 0, 1)] {
        let region = region_after(rt.alloc(), &request, calls)?;
        let fields = Found {
            gate,
            mark,
            ino: INO,
            offset: 77,
            kind: 1,
            count: 3,
            grant: GRANT,
            tails: 0,
        };
        let mut meter = Meter::calm(rt.alloc());
        assert_eq!(rt; found_in(region, &mut meter), Some(fields), "after {calls}");
    }
    Ok(())
}

/// The first words of a slot in which these bytes were staged as a tail, with a stop at the nth
/// step.
fn part_staged(
    slot: Slot<MemRegion>,
    meter: &mut Meter,
    n: u64,
    bytes: &[u8],
) -> Option<MemRegion> {
    meter.stop(n.max(1));
    if bytes.is_empty() || 4096 < bytes.len() {
        return None;
    }
    match slot.stage_part(meter, INO, bytes, GRANT) {
        Ok(part) => Some(part.cancel().into_parts()),
        Err(slot) => Some(slot.into_parts()),
    }
}

const TAIL: [u64; 7] = [0, 0, 2, 0, 262_149, 9, 0x6f_6c6c_6568];

/// Whether a tail of five bytes, staged with a stop at the nth step, is left with these first words
/// by a crash of this pick.
fn tail_leaves(alloc: Global, n: u64, k: u64, words: &[u64]) -> Result<bool, Fail> {
    let mut meter = Meter::calm(alloc);
    let region = part_staged(empty(alloc)?, &mut meter, n, b"hello");
    Ok(leaves(region.ok_or("no slot")?, k, words))
}

// A tail of five bytes takes seven steps.
#[test]
fn a_stop_leaves_a_tail_in_part(rt: HostRuntime) -> Result<(), Fail> {
    assert!(rt; tail_leaves(rt.alloc(), 1, 1, &EMPTY)?);
    assert!(rt; tail_leaves(rt.alloc(), 4, 1, &[0, 0, 2, 0, 0])?);
    assert!(rt; tail_leaves(rt.alloc(), 5, 1, &[0, 0, 2, 0, 262_149, 0])?);
    assert!(rt; tail_leaves(rt.alloc(), 7, 0, &EMPTY)?);
    assert!(rt; tail_leaves(rt.alloc(), 7, 1, &TAIL)?);
    assert!(rt; tail_leaves(rt.alloc(), 8, 0, &TAIL)?);
    Ok(())
}

#[test]
fn the_constants_are_these(rt: HostRuntime) {
    for (place, expected) in [
        (cfs_slot::GATE, 0),
        (cfs_slot::MARK, 1),
        (cfs_slot::INO, 2),
        (cfs_slot::OFFSET, 3),
        (cfs_slot::KIND, 4),
        (cfs_slot::GRANT, 5),
        (cfs_slot::PAYLOAD, 6),
        (cfs_slot::SLOT_WORDS, 518),
        (cfs_slot::FIRST_SLOT, 323),
    ] {
        assert_eq!(rt; place, expected);
    }
    for (number, expected) in [
        (cfs_slot::WRITE, 1),
        (cfs_slot::TRUNCATE, 2),
        (cfs_slot::LONG_WRITE, 3),
        (cfs_slot::TAIL, 4),
        (cfs_slot::TAILS_UNIT, 4_294_967_296),
    ] {
        assert_eq!(rt; number, expected);
    }
    assert_eq!(rt; (cfs_slot::MOST_TAILS, cfs_slot::QUEUE_SLOTS), (15, 16));
}
