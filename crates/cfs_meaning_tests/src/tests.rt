use cfs_block::MemBlock;
use cfs_image::{new_image, read_image};
use cfs_meaning::{crash, keep_tag, keep_word, number_of, plan, stop};
use cfs_pmem::{MemRegion, Meter, Region};
use cfs_words::Device;
use std::alloc::{AllocError, Global};
use std::test::Fail;

fn region(alloc: Global) -> Result<MemRegion, Fail> {
    Ok(MemRegion::new(alloc, 0, [0, 0].to_vec(alloc)?)?)
}

fn keeps(region: &mut MemRegion, meter: &mut Meter, word: u64) -> bool {
    0 < region.len() && keep_word(region, meter, 0, word).is_ok()
}

fn stop_at(meter: &mut Meter, n: u64) {
    if n > 0 {
        stop(meter, n);
    }
}

fn plan_at(meter: &mut Meter, n: u64) -> Result<(), AllocError> {
    if n > 0 {
        plan(meter, 0, true, n)
    } else {
        Ok(())
    }
}

// Device numbers of a store of one queue and sixteen blocks: the selector is 0, the slots begin at
// 323 and the blocks at 339.
#[test]
fn devices_have_their_numbers(rt: HostRuntime) -> Result<(), Fail> {
    assert_eq!(rt; number_of(Device::Selector, 339, 16), Some(0));
    assert_eq!(rt; number_of(Device::Table(1), 339, 16), Some(2));
    assert_eq!(rt; number_of(Device::Journal(63), 339, 16), Some(66));
    assert_eq!(rt; number_of(Device::Size(255), 339, 16), Some(322));
    assert_eq!(rt; number_of(Device::Slot(0, 15), 339, 16), Some(338));
    assert_eq!(rt; number_of(Device::Slot(0, 16), 339, 16), None);
    assert_eq!(rt; number_of(Device::Slot(1, 0), 339, 16), None);
    assert_eq!(rt; number_of(Device::Block(0), 339, 16), Some(339));
    assert_eq!(rt; number_of(Device::Block(16), 339, 16), None);
    Ok(())
}

// Whether each of four words is kept, with a stop or a plan at the nth writing step; a word takes
// two steps. A stop that has come stays, and a plan is spent.
#[test]
fn steps_are_refused_where_lines_say_so(rt: HostRuntime) -> Result<(), Fail> {
    for (n, stopped, planned) in [
        (1, [false, false, false, false], [false, true, true, true]),
        (2, [false, false, false, false], [false, true, true, true]),
        (3, [true, false, false, false], [true, false, true, true]),
        (6, [true, true, false, false], [true, true, false, true]),
        (9, [true, true, true, true], [true, true, true, true]),
    ] {
        let mut words = region(rt.alloc())?;
        let mut meter = Meter::calm(rt.alloc());
        stop_at(&mut meter, n);
        for kept in stopped {
            assert_eq!(rt; keeps(&mut words, &mut meter, 7), kept, "stop {n}");
        }
        let mut words = region(rt.alloc())?;
        let mut meter = Meter::calm(rt.alloc());
        plan_at(&mut meter, n)?;
        for kept in planned {
            assert_eq!(rt; keeps(&mut words, &mut meter, 7), kept, "plan {n}");
        }
    }
    Ok(())
}

// With the power off a later stop changes nothing, and a tag is refused too.
#[test]
fn a_stop_stays(rt: HostRuntime) -> Result<(), Fail> {
    let mut words = region(rt.alloc())?;
    let bytes = [0; 4096].to_vec(rt.alloc())?;
    let mut block = MemBlock::new(rt.alloc(), 339, 0, 0, bytes)?;
    let mut meter = Meter::calm(rt.alloc());
    assert!(rt; keep_tag(&mut block, &mut meter, 131_073).is_ok());
    stop(&mut meter, 1);
    assert!(rt; !keeps(&mut words, &mut meter, 7));
    stop(&mut meter, 100);
    assert!(rt; !keeps(&mut words, &mut meter, 7));
    assert!(rt; keep_tag(&mut block, &mut meter, 0).is_err());
    Ok(())
}

// A crash ends the stop, and leaves a new store's words as they are.
#[test]
fn a_crash_ends_a_stop(rt: HostRuntime) -> Result<(), Fail> {
    let image = new_image(rt.alloc(), 16, 1)?.into_vec();
    let Ok(mut medium) = read_image(rt.alloc(), &image) else {
        return Err(Fail::new("the image is not read"));
    };
    let mut meter = Meter::calm(rt.alloc());
    stop(&mut meter, 1);
    crash(&mut medium, &mut meter, 1);
    let mut words = region(rt.alloc())?;
    assert!(rt; keeps(&mut words, &mut meter, 7));
    Ok(())
}
