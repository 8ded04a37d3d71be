use cfs_block::{
    BLOCK_LEN, Block, FreeBlock, MemBlock, Shadow, ZeroBlock, retag, retag_then_set_word,
};
use cfs_pmem::{MemRegion, Meter, Pick, Power, Region};
use std::alloc::{AllocError, Global};
use std::test::Fail;

fn write<B: Block, P: Power>(block: &mut B, power: &mut P, from: u32, bytes: &[u8]) -> bool {
    from < 4000 && bytes.len() < 90 && block.write(power, from, bytes).is_ok()
}

/// Reads the bytes from place 60 on, which is where these tests write.
fn read<B: Block, P: Power>(block: &mut B, power: &mut P, out: &mut [u8]) -> bool {
    out.len() < 90 && block.read(power, 60, out).is_ok()
}

fn mem_block(alloc: Global) -> Result<MemBlock, AllocError> {
    Ok(MemBlock::new(alloc, 400, 7, 3, vec![in alloc; 0; BLOCK_LEN]?)?)
}

/// Four bytes and a tag that were flushed, then three bytes over them, two bytes whose write
/// failed, and another tag.
fn half_flushed(alloc: Global, block: &mut MemBlock) -> Result<(), AllocError> {
    let mut meter = Meter::calm(alloc);
    let _ = write(block, &mut meter, 62, &[5; 4]);
    let _ = block.flush(&mut meter);
    let _ = write(block, &mut meter, 63, &[7; 3]);
    meter.plan(400, true, 1)?;
    let _ = write(block, &mut meter, 70, &[9; 2]);
    let _ = block.set_tag(&mut meter, 9);
    Ok(())
}

// The draws of the picks from 2 on were worked apart from this program.
#[test]
fn a_crash_leaves_what_its_pick_says(rt: HostRuntime) -> Result<(), Fail> {
    for (k, tag, left) in [
        (0, 3, [0, 0, 5, 5, 5, 5, 0, 0, 0, 0, 0, 0, 0, 0]),
        (1, 9, [0, 0, 5, 7, 7, 7, 0, 0, 0, 0, 0, 0, 0, 0]),
        (2, 3, [0, 0, 5, 170, 136, 88, 0, 0, 0, 0, 71, 75, 0, 0]),
        (3, 9, [0, 0, 5, 251, 67, 202, 0, 0, 0, 0, 52, 163, 0, 0]),
        (4, 3, [0, 0, 5, 76, 254, 59, 0, 0, 0, 0, 33, 251, 0, 0]),
    ] {
        let mut block = mem_block(rt.alloc())?;
        half_flushed(rt.alloc(), &mut block)?;
        block.crash(&mut Pick::new(k));
        let mut out = [0; 14];
        assert!(rt; read(&mut block, &mut Meter::calm(rt.alloc()), &mut out));
        assert_eq!(rt; (block.tag_word(), out), (tag, left), "pick {k}");
    }
    Ok(())
}

/// A block of fives that no file has.
fn free_block(alloc: Global) -> Result<FreeBlock<MemBlock>, AllocError> {
    let block = MemBlock::new(alloc, 400, 7, 0, vec![in alloc; 5; BLOCK_LEN]?)?;
    Ok(FreeBlock::new(block))
}

/// Tries to make a block of fives zero, with a stop at its nth writing step. Whether it was, its
/// number, and its first byte after a crash that leaves what is durable.
fn zero_with_stop(alloc: Global, n: u64) -> Result<(bool, u32, Option<u8>), AllocError> {
    let mut meter = Meter::calm(alloc);
    meter.stop(n.max(1));
    let (mut block, made) = parts(free_block(alloc)?.zero(&mut meter));
    block.crash(&mut Pick::new(0));
    Ok((made, block.number(), block.bytes().first().copied()))
}

/// The block of an outcome, and whether it was made zero.
fn parts(zeroed: Result<ZeroBlock<MemBlock>, FreeBlock<MemBlock>>) -> (MemBlock, bool) {
    match zeroed {
        Ok(zero) => (zero.free().into_block(), true),
        Err(free) => (free.into_block(), false),
    }
}

/// Sets the tag 8 over 3 with a stop at the nth writing step. Whether it was set, and the tag after
/// a crash.
fn tag_with_stop(alloc: Global, n: u64, pick: u64) -> Result<(bool, u64), AllocError> {
    let mut meter = Meter::calm(alloc);
    meter.stop(n.max(1));
    let mut block = mem_block(alloc)?;
    let made = retag(&mut block, &mut meter, 8).is_ok();
    block.crash(&mut Pick::new(pick));
    Ok((made, block.tag(&mut Meter::calm(alloc)).unwrap_or(0)))
}

// A stop at the first writing step, at the flush, and behind both.
#[test]
fn a_stop_cuts_off_what_is_not_flushed(rt: HostRuntime) -> Result<(), Fail> {
    for (n, made, byte, durable, present) in [
        (1, false, 5, 3, 3),
        (2, false, 5, 3, 8),
        (3, true, 0, 8, 8),
    ] {
        assert_eq!(rt; zero_with_stop(rt.alloc(), n)?, (made, 7, Some(byte)));
        assert_eq!(rt; tag_with_stop(rt.alloc(), n, 0)?, (made, durable));
        assert_eq!(rt; tag_with_stop(rt.alloc(), n, 1)?, (made, present));
    }
    Ok(())
}

/// The writing calls of a block.
#[derive(Clone, Copy, Debug)]
enum Kind {
    Write,
    SetTag,
    Flush,
}

fn call<B: Block, P: Power>(block: &mut B, power: &mut P, kind: Kind) -> bool {
    match kind {
        Kind::Write => write(block, power, 60, &[8; 3]),
        Kind::SetTag => block.set_tag(power, 8).is_ok(),
        Kind::Flush => block.flush(power).is_ok(),
    }
}

/// A block with the bytes 6 and the tag 6 that are not flushed, over the bytes 0 and the tag 3, of
/// which one call is refused.
fn refused(alloc: Global, kind: Kind) -> Result<MemBlock, AllocError> {
    let mut meter = Meter::calm(alloc);
    let mut block = mem_block(alloc)?;
    let _ = write(&mut block, &mut meter, 60, &[6; 3]);
    let _ = block.set_tag(&mut meter, 6);
    meter.plan(400, true, 1)?;
    let _ = call(&mut block, &mut meter, kind);
    Ok(block)
}

// A refused call of a block in memory leaves the bytes and the tag that are read, and makes nothing
// durable.
#[test]
fn a_refused_call_leaves_what_is_read(rt: HostRuntime) -> Result<(), Fail> {
    for kind in [Kind::Write, Kind::SetTag, Kind::Flush] {
        for (pick, tag, byte) in [(0, 3, 0), (1, 6, 6)] {
            let mut block = refused(rt.alloc(), kind)?;
            let mut out = [0; 3];
            assert!(rt; read(&mut block, &mut Meter::calm(rt.alloc()), &mut out));
            assert_eq!(rt; (block.tag_word(), out), (6, [6; 3]), "{kind:?}");
            block.crash(&mut Pick::new(pick));
            assert!(rt; read(&mut block, &mut Meter::calm(rt.alloc()), &mut out));
            assert_eq!(rt;
                (block.tag_word(), out),
                (tag, [byte; 3]),
                "{kind:?}, pick {pick}"
            );
        }
    }
    Ok(())
}

/// A block over two, of device numbers 400 and 401.
fn shadow(alloc: Global) -> Result<Shadow<MemBlock, MemBlock>, AllocError> {
    let first = mem_block(alloc)?;
    let second = MemBlock::new(alloc, 401, 8, 3, vec![in alloc; 0; BLOCK_LEN]?)?;
    Ok(Shadow { first, second })
}

// A plan on the second block changes nothing that is read; one on the first refuses the call. Each
// call asks for a step of both.
#[test]
fn a_block_over_two_is_read_as_its_first(rt: HostRuntime) -> Result<(), Fail> {
    for (device, done, tag, copy) in [(400, false, 3, 8), (401, true, 8, 3)] {
        let mut meter = Meter::calm(rt.alloc());
        let mut block = shadow(rt.alloc())?;
        meter.plan(device, true, 1)?;
        assert_eq!(rt; retag(&mut block, &mut meter, 8).is_ok(), done);
        assert_eq!(rt; block.tag(&mut meter).unwrap_or(0), tag, "device {device}");
        assert_eq!(rt; block.second.tag_word(), copy, "device {device}");
        assert!(rt; write(&mut block, &mut meter, 60, &[2; 2]));
        let mut out = [0; 2];
        assert!(rt; read(&mut block, &mut meter, &mut out) && block.flush(&mut meter).is_ok());
        assert_eq!(rt; (out, block.number(), block.device()), ([2; 2], 7, 400));
    }
    Ok(())
}

/// Sets the tag 8 and the word 5 with a stop at the nth writing step. The tag and the word after a
/// crash that leaves what is durable.
fn tag_and_word(alloc: Global, n: u64) -> Result<(u64, Option<u64>), AllocError> {
    let mut meter = Meter::calm(alloc);
    let mut block = mem_block(alloc)?;
    let mut region = MemRegion::new(alloc, 7, vec![in alloc; 0; 2]?)?;
    meter.stop(n.max(1));
    if 1 < region.len() && region.device() < block.device() {
        let _ = retag_then_set_word(&mut block, &mut region, &mut meter, 8, 1, 5);
    }
    block.crash(&mut Pick::new(0));
    region.crash(&mut Pick::new(0));
    Ok((block.tag_word(), region.words().last().copied()))
}

// The word is set only where the tag stands.
#[test]
fn a_tag_comes_before_its_word(rt: HostRuntime) -> Result<(), Fail> {
    for (n, tag, word) in [(1, 3, 0), (2, 3, 0), (3, 8, 0), (4, 8, 0), (5, 8, 5)] {
        assert_eq!(rt; tag_and_word(rt.alloc(), n)?, (tag, Some(word)), "stop {n}");
    }
    Ok(())
}
