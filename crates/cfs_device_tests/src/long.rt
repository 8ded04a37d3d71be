use cfs_file::{Bytes, Request};
use cfs_long::{are_chain, is_chained, slots_for, stage_chain};
use cfs_pmem::{MemRegion, Meter, Pick, Region};
use cfs_slot::{Found, Slot, found};
use cfs_vec::FixedVec;
use std::alloc::{AllocError, Global};
use std::test::Fail;

const INO: u64 = 2;

const PLACE: u64 = 7;

const GRANT: u64 = 9;

/// The first slots of the first queue, which hold nothing.
fn empty_slots(alloc: Global, count: u32) -> Result<FixedVec<Slot<MemRegion>, 16>, AllocError> {
    let mut slots = FixedVec::new();
    for device in 323..323 + count.min(16) {
        let region = MemRegion::new(alloc, device, vec![in alloc; 0; 518]?)?;
        if slots.len() < 16 {
            slots.push(Slot::new(region));
        }
    }
    Ok(slots)
}

/// A write at 5 of so many bytes, no two slots of which begin alike.
fn write(alloc: Global, count: usize) -> Result<Request, Fail> {
    let mut bytes = Vec::new(alloc);
    for at in 0..count {
        bytes.push((at % 251) as u8)?;
    }
    Ok(Request::Write {
        offset: 5,
        bytes: Bytes::from_vec(bytes),
    })
}

/// The regions of slots, in order.
fn regions_of(mut slots: FixedVec<Slot<MemRegion>, 16>) -> FixedVec<MemRegion, 16> {
    let mut regions = FixedVec::new();
    slots.reverse();
    for _ in 0..slots.len() {
        if let Some(slot) = slots.pop()
            && regions.len() < 16
        {
            regions.push(slot.into_parts());
        }
    }
    regions
}

/// The regions of these slots, in order, after a request was staged in them and opened.
fn admitted(
    slots: FixedVec<Slot<MemRegion>, 16>,
    meter: &mut Meter,
    request: &Request,
) -> Option<FixedVec<MemRegion, 16>> {
    if !is_chained(request) || slots.len() != slots_for(request) || !are_chain(&slots) {
        return None;
    }
    match stage_chain(slots, meter, INO, request, GRANT) {
        Ok(staged) => match staged.open_gate(meter, PLACE) {
            Ok(live) => Some(live.into_parts()),
            Err(doubt) => Some(doubt.into_parts()),
        },
        Err(slots) => Some(regions_of(slots)),
    }
}

/// A byte of the payload that stands in these slots together.
fn byte_at(regions: &FixedVec<MemRegion, 16>, at: usize) -> Option<u64> {
    if regions.len() <= at / 4096 {
        return None;
    }
    let word = regions.at(at / 4096).words().get(6 + at % 4096 / 8)?;
    Some(*word >> (8 * (at as u32 % 8)) & 255)
}

/// Whether the payload is that of `write`.
fn is_written(regions: &FixedVec<MemRegion, 16>, count: usize) -> bool {
    (0..count).all(|at| byte_at(regions, at) == Some((at % 251) as u64))
}

/// What recovery finds in the first slot.
fn found_first(mut regions: FixedVec<MemRegion, 16>, meter: &mut Meter) -> Option<Found> {
    regions.reverse();
    let mut region = regions.pop()?;
    if region.words().len() == 518 {
        found(&mut region, meter).ok()
    } else {
        None
    }
}

// A write of one slot, and then one of each number of tails, of which the last has from 274 to 4096
// bytes.
#[test]
fn a_request_is_found_in_its_slots(rt: HostRuntime) -> Result<(), Fail> {
    for tails in 0..16_usize {
        // The bits from 1 on, one for each tail.
        let set = (2_u64 << tails).wrapping_sub(2);
        let count = 4369 * tails + 1;
        let request = write(rt.alloc(), count)?;
        let mut meter = Meter::calm(rt.alloc());
        let slots = empty_slots(rt.alloc(), tails as u32 + 1)?;
        let regions = admitted(slots, &mut meter, &request).ok_or("not asked")?;
        assert!(rt; is_written(&regions, count), "{tails} tails");
        let fields = Found {
            gate: PLACE,
            mark: 0,
            ino: INO,
            offset: 5,
            kind: if tails == 0 { 1 } else { 3 },
            count: count as u64,
            grant: GRANT,
            tails: set,
        };
        assert_eq!(rt;
            found_first(regions, &mut meter),
            Some(fields),
            "{tails} tails"
        );
    }
    Ok(())
}

/// The fields of a slot that a crash of this pick leaves, and how many words of its payload have
/// letters.
fn left(region: &mut MemRegion, pick: u64) -> ([u64; 6], usize) {
    region.crash(&mut Pick::new(pick));
    let mut fields = [0; 6];
    let mut letters = 0_usize;
    for (at, word) in region.words().iter().enumerate() {
        if at < 6 {
            fields[at] = *word;
        } else if *word == 0x6161_6161_6161_6161 {
            letters = letters.saturating_add(1);
        }
    }
    (fields, letters)
}

const EMPTY: ([u64; 6], usize) = ([0; 6], 0);

const TAIL: [u64; 6] = [0, 0, 2, 0, 263_048, 9];

const HEAD: [u64; 6] = [0, 0, 2, 5, 8_590_136_199, 9];

const OPEN: [u64; 6] = [7, 0, 2, 5, 8_590_136_199, 9];

/// The head and the tail of 5000 letters after a crash of this pick, where they were staged and
/// opened with a stop at the nth writing step.
fn stopped(alloc: Global, n: u64, pick: u64) -> Result<[([u64; 6], usize); 2], Fail> {
    let bytes = Bytes::from_vec(vec![in alloc; b'a'; 5000]?);
    let request = Request::Write { offset: 5, bytes };
    let mut meter = Meter::calm(alloc);
    meter.stop(n.max(1));
    let mut regions = admitted(empty_slots(alloc, 2)?, &mut meter, &request).ok_or("not asked")?;
    let mut tail = regions.pop().ok_or("no tail")?;
    let mut head = regions.pop().ok_or("no head")?;
    Ok([left(&mut head, pick), left(&mut tail, pick)])
}

// The tail takes 119 steps, the head 518 and the gate 2. What a crash leaves of the head and of the
// tail that keeps what was durable, and one that keeps what was present.
#[test]
fn a_stop_leaves_every_gate_closed_or_the_write_whole(rt: HostRuntime) -> Result<(), Fail> {
    for (n, durable, present) in [
        (1, [EMPTY, EMPTY], [EMPTY, EMPTY]),
        (4, [EMPTY, EMPTY], [EMPTY, ([0, 0, 2, 0, 0, 0], 0)]),
        (6, [EMPTY, EMPTY], [EMPTY, (TAIL, 0)]),
        (100, [EMPTY, EMPTY], [EMPTY, (TAIL, 94)]),
        (119, [EMPTY, EMPTY], [EMPTY, (TAIL, 113)]),
        (120, [EMPTY, (TAIL, 113)], [EMPTY, (TAIL, 113)]),
        (126, [EMPTY, (TAIL, 113)], [(HEAD, 1), (TAIL, 113)]),
        (637, [EMPTY, (TAIL, 113)], [(HEAD, 512), (TAIL, 113)]),
        (638, [(HEAD, 512), (TAIL, 113)], [(HEAD, 512), (TAIL, 113)]),
        (639, [(HEAD, 512), (TAIL, 113)], [(OPEN, 512), (TAIL, 113)]),
        (640, [(OPEN, 512), (TAIL, 113)], [(OPEN, 512), (TAIL, 113)]),
    ] {
        assert_eq!(rt; stopped(rt.alloc(), n, 0)?, durable, "stop {n}, durable");
        assert_eq!(rt; stopped(rt.alloc(), n, 1)?, present, "stop {n}, present");
    }
    Ok(())
}
