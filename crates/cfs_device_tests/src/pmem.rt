use cfs_pmem::{
    DeviceFault, MemRegion, Meter, Pick, Power, Region, set_word, set_word_metered, set_word_of,
    set_word_with_stop, write_words,
};
use std::alloc::{AllocError, Global};
use std::test::Fail;

fn write<R: Region, P: Power>(
    region: &mut R,
    power: &mut P,
    at: u32,
    word: u64,
) -> Result<(), DeviceFault> {
    if at < region.len() {
        region.write(power, at, word)
    } else {
        Err(DeviceFault)
    }
}

fn set<R: Region, P: Power>(region: &mut R, power: &mut P, at: u32, word: u64) -> bool {
    at < region.len() && set_word(region, power, at, word).is_ok()
}

fn reads<R: Region, P: Power>(region: &mut R, power: &mut P, at: u32, word: u64) -> bool {
    at < region.len() && region.read(power, at) == Ok(word)
}

/// Two words that were persisted, and two that were not.
fn half_persisted(alloc: Global) -> Result<MemRegion, AllocError> {
    let mut meter = Meter::calm(alloc);
    let mut region = MemRegion::new(alloc, 7, [10, 20, 30, 40].to_vec(alloc)?)?;
    let _ = write(&mut region, &mut meter, 0, 11);
    let _ = write(&mut region, &mut meter, 2, 33);
    let _ = region.persist(&mut meter);
    let _ = write(&mut region, &mut meter, 1, 22);
    let _ = write(&mut region, &mut meter, 3, 44);
    Ok(region)
}

// The draws of the picks from 2 on were worked apart from this program.
#[test]
fn a_crash_leaves_what_its_pick_says(rt: HostRuntime) -> Result<(), Fail> {
    for (k, left) in [
        (0, [11, 20, 33, 40]),
        (1, [11, 22, 33, 44]),
        (2, [11, 20, 33, 40]),
        (3, [11, 22, 33, 44]),
        (5, [11, 20, 33, 44]),
        (6, [11, 22, 33, 40]),
    ] {
        let mut region = half_persisted(rt.alloc())?;
        region.crash(&mut Pick::new(k));
        assert_eq!(rt; region.words(), left.as_slice(), "pick {k}");
    }
    Ok(())
}

/// Sets a word with a stop at its nth writing step. Whether it was set, and whether reading works
/// until the stop alone.
fn set_with_stop(meter: &mut Meter, region: &mut MemRegion, n: u64) -> (bool, bool) {
    meter.stop(n.max(1));
    let before = reads(region, meter, 0, 10);
    let set = set(region, meter, 0, 12);
    let stopped = meter.is_off() && !reads(region, meter, 0, 12);
    meter.revive();
    (set, before && stopped != set)
}

// What a crash leaves that keeps what was durable, and one that keeps what was present.
#[test]
fn a_stop_cuts_a_word_off(rt: HostRuntime) -> Result<(), Fail> {
    for (n, k, set, left) in [
        (1, 0, false, 10),
        (1, 1, false, 10),
        (2, 0, false, 10),
        (2, 1, false, 12),
        (3, 0, true, 12),
        (3, 1, true, 12),
    ] {
        let mut meter = Meter::calm(rt.alloc());
        let mut region = MemRegion::new(rt.alloc(), 7, [10].to_vec(rt.alloc())?)?;
        assert_eq!(rt; set_with_stop(&mut meter, &mut region, n), (set, true));
        region.crash(&mut Pick::new(k));
        assert_eq!(rt; region.words(), [left].as_slice(), "stop {n}, pick {k}");
    }
    Ok(())
}

fn planned(alloc: Global) -> Result<Meter, AllocError> {
    let mut meter = Meter::calm(alloc);
    meter.plan(7, true, 2)?;
    meter.plan(7, true, 2)?;
    meter.plan(7, false, 1)?;
    meter.plan(8, true, 1)?;
    meter.stop(4);
    Ok(meter)
}

// Each plan refuses one step of its device and direction; two that fall on one step are both spent.
#[test]
fn a_plan_refuses_one_step(rt: HostRuntime) -> Result<(), Fail> {
    let mut meter = planned(rt.alloc())?;
    for (device, writing, passes) in [
        (7, true, true),
        (7, true, false),
        (9, false, true),
        (7, false, false),
        (7, true, true),
        (7, false, true),
        (8, true, false),
        (9, false, false),
    ] {
        assert_eq!(rt; meter.step(device, writing), passes, "device {device}");
    }
    Ok(())
}

fn write_all<R: Region, P: Power>(
    region: &mut R,
    power: &mut P,
    from: u32,
    words: &[u64],
) -> Result<(), DeviceFault> {
    let room = region.len() as usize;
    if words.len() <= room && from as usize <= room - words.len() {
        write_words(region, power, from, words)
    } else {
        Err(DeviceFault)
    }
}

/// Four words that a power refuses one step of, over a region of six.
fn write_with_plan(alloc: Global, k: u64) -> Result<(bool, MemRegion), AllocError> {
    let mut meter = Meter::calm(alloc);
    meter.plan(7, true, k.max(1))?;
    let mut region = MemRegion::new(alloc, 7, vec![in alloc; 9; 6]?)?;
    let written = write_all(&mut region, &mut meter, 1, &[1, 2, 3, 4]).is_ok();
    Ok((written, region))
}

// Of four words a plan at the third writes two; one behind the fourth writes all.
#[test]
fn a_plan_cuts_words_off(rt: HostRuntime) -> Result<(), Fail> {
    for (k, written, left) in [
        (1, false, [9, 9, 9, 9, 9, 9]),
        (3, false, [9, 1, 2, 9, 9, 9]),
        (4, false, [9, 1, 2, 3, 9, 9]),
        (5, true, [9, 1, 2, 3, 4, 9]),
    ] {
        let (done, mut region) = write_with_plan(rt.alloc(), k)?;
        assert_eq!(rt;
            (done, region.words()),
            (written, left.as_slice()),
            "plan {k}"
        );
        region.crash(&mut Pick::new(0));
        assert_eq!(rt;
            region.words(),
            [9; 6].as_slice(),
            "not persisted, plan {k}"
        );
    }
    Ok(())
}

/// The calls of a region, each with the direction of its step.
#[derive(Clone, Copy, Debug)]
enum Kind {
    Read,
    Write,
    Persist,
}

fn call<R: Region, P: Power>(region: &mut R, power: &mut P, kind: Kind) -> bool {
    match kind {
        Kind::Read => reads(region, power, 0, 11),
        Kind::Write => write(region, power, 1, 21).is_ok(),
        Kind::Persist => region.persist(power).is_ok(),
    }
}

// A refused call changes no word, neither what is read nor what is durable; the next one goes well.
#[test]
fn a_refused_call_leaves_the_words(rt: HostRuntime) -> Result<(), Fail> {
    for (kind, writing, present, durable) in [
        (Kind::Read, false, [11, 20], [10, 20]),
        (Kind::Write, true, [11, 21], [10, 20]),
        (Kind::Persist, true, [11, 20], [11, 20]),
    ] {
        let mut meter = Meter::calm(rt.alloc());
        let mut region = MemRegion::new(rt.alloc(), 7, [10, 20].to_vec(rt.alloc())?)?;
        assert!(rt; write(&mut region, &mut meter, 0, 11).is_ok());
        meter.plan(7, writing, 1)?;
        assert!(rt; !call(&mut region, &mut meter, kind), "{kind:?}");
        assert_eq!(rt; region.words(), [11, 20].as_slice(), "{kind:?}");
        assert!(rt; call(&mut region, &mut meter, kind), "{kind:?}");
        assert_eq!(rt; region.words(), present.as_slice(), "{kind:?}");
        region.crash(&mut Pick::new(0));
        assert_eq!(rt; region.words(), durable.as_slice(), "{kind:?}");
    }
    Ok(())
}

/// Sets the one word of a region with a stop at its nth writing step. Whether it was set, whether
/// the power is off, and the region.
fn set_to_a_stop(alloc: Global, n: u64) -> Result<(bool, bool, MemRegion), AllocError> {
    let mut meter = Meter::calm(alloc);
    let mut region = MemRegion::new(alloc, 7, [10].to_vec(alloc)?)?;
    let set = region.len() > 0
        && set_word_with_stop(&mut region, &mut meter, n.max(1), 0, 12).is_ok();
    Ok((set, meter.is_off(), region))
}

// A stop at the write leaves the word, one at the persist leaves it unsure, and one behind them
// neither.
#[test]
fn a_stop_comes_within_the_call_or_behind_it(rt: HostRuntime) -> Result<(), Fail> {
    for (n, was_set, off, present) in [
        (1, false, true, 10),
        (2, false, true, 12),
        (3, true, false, 12),
    ] {
        let (set, is_off, region) = set_to_a_stop(rt.alloc(), n)?;
        assert_eq!(rt;
            (set, is_off, region.words()),
            (was_set, off, [present].as_slice()),
            "stop {n}"
        );
    }
    Ok(())
}

fn set_metered<R: Region>(region: &mut R, meter: &mut Meter, at: u32, word: u64) -> bool {
    at < region.len() && set_word_metered(region, meter, at, word).is_ok()
}

// A plan at the persist refuses one call, and the next one goes well; so it does for one of a list
// of regions.
#[test]
fn a_plan_is_spent_by_one_call(rt: HostRuntime) -> Result<(), Fail> {
    let mut meter = Meter::calm(rt.alloc());
    let mut region = MemRegion::new(rt.alloc(), 7, [10].to_vec(rt.alloc())?)?;
    meter.plan(7, true, 2)?;
    assert!(rt; !set_metered(&mut region, &mut meter, 0, 4));
    assert!(rt; set_metered(&mut region, &mut meter, 0, 5));
    let mut regions = [region];
    if regions[0].len() > 0 {
        assert!(rt; set_word_of(&mut regions, &mut meter, 0, 0, 6).is_ok());
    }
    assert_eq!(rt; regions[0].words(), [6].as_slice());
    Ok(())
}
