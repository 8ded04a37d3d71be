ghost use Rattle.std.specs.Prelude.{◌≡◌, IfSome, map};
ghost use Rattle.cfs_file.specs.Span.{span};
ghost use Rattle.cfs_pmem.specs.Images.{IsSure, words_of};
ghost use Rattle.cfs_slot.specs.Reads.{regions_of};
ghost use Rattle.cfs_slot.specs.Regions.{of_staged, place_of, tails_of_staged, words_in};
ghost use Rattle.cfs_slot.specs.Staging.{staged_request};
ghost use Rattle.cfs_slot.specs.Words.{request_of};
ghost use Rattle.cfs_job.specs.Stands.{IsOpen};
ghost use Rattle.cfs_job.specs.Views.{request_seen};

use cfs_block::{BLOCK_LEN, MemBlock};
use cfs_file::{Bytes, Request, Span, span_of};
use cfs_job::{Job, Lent, Turn};
use cfs_long::{are_chain, is_chained, slots_for, stage_chain};
use cfs_pmem::{MemRegion, Meter, Pick, Region};
use cfs_slot::{Live, Slot, Staged};
use cfs_vec::FixedVec;
use std::alloc::{AllocError, Global};
use std::test::Fail;

const INO: u64 = 2;

const PLACE: u64 = 7;

const GRANT: u64 = 9;

/// The request of these slots, opened.
fn open_staged(staged: Staged<MemRegion>, meter: &mut Meter) -> Option<Live<MemRegion>>
    requires { IsSure (⟦<MemRegion as Region>⟧.seen (of_staged staged)) }
    ensures request { IfSome result (λ live.
        request_seen (map ⟦<MemRegion as Region>⟧.seen (regions_of live)) ≡
        request_of (words_of (⟦<MemRegion as Region>⟧.seen (of_staged staged)))
        (words_in ⟦<MemRegion as Region>⟧.seen (tails_of_staged staged))) }
    ensures opened { IfSome result (λ live.
        IsOpen (map ⟦<MemRegion as Region>⟧.seen (regions_of live)) (place_of live)) }
{
    match staged.open_gate(meter, PLACE) {
        Ok(live) => Some(live),
        Err(_) => None,
    }
}

/// A request, staged in these slots and opened.
fn opened(
    slots: FixedVec<Slot<MemRegion>, 16>,
    meter: &mut Meter,
    request: &Request,
) -> Option<Live<MemRegion>>
    ensures request { IfSome result (λ live.
        request_seen (map ⟦<MemRegion as Region>⟧.seen (regions_of live)) ≡
        staged_request request.now) }
    ensures opened { IfSome result (λ live.
        IsOpen (map ⟦<MemRegion as Region>⟧.seen (regions_of live)) (place_of live)) }
{
    if !is_chained(request) || slots.len() != slots_for(request) || !are_chain(&slots) {
        return None;
    }
    match stage_chain(slots, meter, INO, request, GRANT) {
        Ok(staged) => open_staged(staged, meter),
        Err(_) => None,
    }
}

/// The positions of a write or a truncate that ends where a number can tell.
fn positions(request: &Request) -> Option<Span>
    ensures { IfSome result (λ s. s ≡ span (staged_request request.now) 0) }
{
    match request {
        Request::Write { offset, bytes } => match offset.checked_add(bytes.len() as u64) {
            Some(_) => Some(span_of(request, 0)),
            None => None,
        },
        Request::Truncate { length } => Some(Span::From { from: *length }),
        Request::Append { .. } | Request::Read { .. } | Request::Sync => None,
    }
}

/// A job of a request that is staged in these slots.
fn begun(
    slots: FixedVec<Slot<MemRegion>, 16>,
    meter: &mut Meter,
    request: &Request,
    first: Option<Lent<MemBlock>>,
    second: Option<Lent<MemBlock>>,
) -> Option<Job<MemRegion, MemBlock>> {
    let span = positions(request)?;
    let live = opened(slots, meter, request)?;
    if Job::<MemRegion, MemBlock>::fits(span, &first, &second) {
        Some(Job::new(INO, live, span, first, second))
    } else {
        None
    }
}

/// The first slots of the first queue, which hold nothing.
fn empty_slots(alloc: Global, count: usize) -> Result<FixedVec<Slot<MemRegion>, 16>, AllocError> {
    let mut slots = FixedVec::new();
    for device in 323..323 + count.min(16) as u32 {
        let region = MemRegion::new(alloc, device, vec![in alloc; 0; 518]?)?;
        if slots.len() < 16 {
            slots.push(Slot::new(region));
        }
    }
    Ok(slots)
}

/// A block of nines, for a block of the file.
fn nines(alloc: Global, at: u64) -> Result<Lent<MemBlock>, AllocError> {
    let number = at.min(255) as u32;
    let bytes = vec![in alloc; 9; BLOCK_LEN]?;
    let block = MemBlock::new(alloc, 2000 + number, number, 0, bytes)?;
    Ok(Lent { at, block })
}

/// A write of the bytes 0, 1, .. 250, 0, 1, .. at an offset.
fn write(alloc: Global, offset: u64, count: usize) -> Result<Request, Fail> {
    let mut bytes = Vec::new(alloc);
    for at in 0..count {
        bytes.push((at % 251) as u8)?;
    }
    let bytes = Bytes::from_vec(bytes);
    Ok(Request::Write { offset, bytes })
}

/// A job of this request on blocks of nines, the second one where there is one.
fn job(
    alloc: Global,
    meter: &mut Meter,
    request: &Request,
    first: u64,
    second: Option<u64>,
) -> Result<Job<MemRegion, MemBlock>, Fail> {
    let slots = empty_slots(alloc, slots_for(request))?;
    let first = Some(nines(alloc, first)?);
    let second = match second {
        Some(at) => Some(nines(alloc, at)?),
        None => None,
    };
    Ok(begun(slots, meter, request, first, second).ok_or("no job")?)
}

/// Makes the steps of a job up to the first that is refused, and tells whether one was.
fn run(job: &mut Job<MemRegion, MemBlock>, meter: &mut Meter) -> bool {
    for _ in 0..4 {
        if job.apply_step(meter).is_err() {
            return true;
        }
    }
    false
}

/// A block after a crash of this pick.
fn crashed(lent: Option<Lent<MemBlock>>, k: u64) -> Option<MemBlock> {
    let Lent { mut block, .. } = lent?;
    block.crash(&mut Pick::new(k));
    Some(block)
}

fn byte(block: &Option<MemBlock>, at: usize) -> Option<u8> {
    match block {
        Some(block) => block.bytes().get(at).copied(),
        None => None,
    }
}

/// The bytes that a crash of this pick leaves of a job's blocks, at two places in each.
fn left(job: Job<MemRegion, MemBlock>, k: u64, places: [usize; 4]) -> [Option<u8>; 4] {
    let (_, first, second) = job.into_parts();
    let (first, second) = (crashed(first, k), crashed(second, k));
    [
        byte(&first, places[0]),
        byte(&first, places[1]),
        byte(&second, places[2]),
        byte(&second, places[3]),
    ]
}

/// Two places in each block, and the bytes there.
type Row = ([usize; 4], [Option<u8>; 4]);

// What stands in the two blocks once all steps are made: the first and the last byte of a part, or
// a nine beside it.
#[test]
fn a_job_writes_its_part_of_each_block(rt: HostRuntime) -> Result<(), Fail> {
    let alloc = rt.alloc();
    let rows: [(Request, u64, Option<u64>, u32, Row); 5] = [
        // Five bytes in one block.
        (
            write(alloc, 5, 5)?,
            0,
            None,
            2,
            ([5, 9, 0, 0], [Some(0), Some(4), None, None]),
        ),
        // Six bytes at the end of one block, and four in the next.
        (
            write(alloc, 4090, 10)?,
            0,
            Some(1),
            4,
            ([4089, 4095, 0, 4], [Some(9), Some(5), Some(6), Some(9)]),
        ),
        // 3996 bytes of the head in one block; in the next its last 100, and 904 of the tail.
        (
            write(alloc, 100, 5000)?,
            0,
            Some(1),
            4,
            (
                [99, 4095, 99, 100],
                [Some(9), Some(230), Some(79), Some(80)],
            ),
        ),
        // The second and the third part of a longer one.
        (
            write(alloc, 100, 9000)?,
            1,
            Some(2),
            4,
            (
                [0, 4095, 907, 908],
                [Some(231), Some(59), Some(214), Some(9)],
            ),
        ),
        // All behind a length.
        (
            Request::Truncate { length: 4100 },
            1,
            Some(2),
            4,
            ([3, 4, 0, 4095], [Some(9), Some(0), Some(0), Some(0)]),
        ),
    ];
    for (request, first, second, steps, (places, bytes)) in rows {
        let mut meter = Meter::calm(alloc);
        let mut job = job(alloc, &mut meter, &request, first, second)?;
        assert_eq!(rt; (job.ino(), job.place(), job.left()), (INO, PLACE, steps));
        assert!(rt; !run(&mut job, &mut meter));
        assert_eq!(rt; (job.left(), job.next()), (0, Turn::Nothing));
        assert_eq!(rt; left(job, 0, places), bytes);
    }
    Ok(())
}

/// Ten bytes over the end of one block and the beginning of the next.
fn across(alloc: Global, meter: &mut Meter) -> Result<Job<MemRegion, MemBlock>, Fail> {
    job(alloc, meter, &write(alloc, 4090, 10)?, 0, Some(1))
}

/// The place before the part in the first block and its last one, the first one of that in the
/// second block, and the place behind.
const PLACES: [usize; 4] = [4089, 4095, 0, 4];

const OLD: [Option<u8>; 4] = [Some(9); 4];

const WRITTEN: [Option<u8>; 4] = [Some(9), Some(5), Some(6), Some(9)];

const HALF: [Option<u8>; 4] = [Some(9), Some(5), Some(9), Some(9)];

// A stop at each of the four steps: how many are left, what a crash leaves that keeps what was
// durable, and one that keeps what was present. The same job goes on after it.
#[test]
fn a_stop_leaves_a_job_where_it_was(rt: HostRuntime) -> Result<(), Fail> {
    let alloc = rt.alloc();
    for (n, steps, durable, present) in [
        (1, 4, OLD, OLD),
        (2, 3, OLD, HALF),
        (3, 2, OLD, WRITTEN),
        (4, 1, HALF, WRITTEN),
    ] {
        for (k, again, bytes) in [(0, false, durable), (1, false, present), (0, true, WRITTEN)] {
            let mut meter = Meter::calm(alloc);
            let mut job = across(alloc, &mut meter)?;
            meter.stop(n);
            assert!(rt; run(&mut job, &mut meter), "stop {n}");
            assert_eq!(rt; job.left(), steps, "stop {n}");
            meter.revive();
            assert_eq!(rt; again && run(&mut job, &mut meter), false);
            assert_eq!(rt; left(job, k, PLACES), bytes, "stop {n}, pick {k}");
        }
    }
    Ok(())
}

// A refusal of one step: of a read of the slot, a write of the second block and a flush of it.
#[test]
fn a_refused_step_is_the_next_one(rt: HostRuntime) -> Result<(), Fail> {
    let alloc = rt.alloc();
    for (device, writing, k, turn, bytes) in [
        (323, false, 1, Turn::WriteFirst, OLD),
        (323, false, 2, Turn::WriteSecond, HALF),
        (2001, true, 1, Turn::WriteSecond, HALF),
        (2001, true, 2, Turn::FlushSecond, WRITTEN),
    ] {
        let mut meter = Meter::calm(alloc);
        let mut job = across(alloc, &mut meter)?;
        meter.plan(device, writing, k)?;
        assert!(rt; run(&mut job, &mut meter), "device {device}");
        assert_eq!(rt; job.next(), turn, "device {device}");
        assert_eq!(rt; left(job, 1, PLACES), bytes, "device {device}");
    }
    Ok(())
}
