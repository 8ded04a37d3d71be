ghost use Rattle.std.specs.Prelude.{◌<◌};

use cfs_extent::{BLOCKS, ExtentMap};
use std::alloc::AllocError;

/// The next number of a plain generator of numbers.
fn draw(seed: &mut u64, below: u64) -> u64
    requires { 0 < below }
    ensures { result < below }
{
    *seed = seed
        .wrapping_mul(6_364_136_223_846_793_005)
        .wrapping_add(1_442_695_040_888_963_407);
    (*seed >> 33) % below
}

/// Maps a file block that is not mapped yet, and answers whether it was not.
fn put(map: &mut ExtentMap<u32>, k: u32, block: u32) -> Result<bool, AllocError> {
    map.reserve(1)?;
    if k >= BLOCKS || map.is_mapped(k) {
        return Ok(false);
    }
    map.put(k, block);
    Ok(true)
}

/// Gives a block back that is out, or changes the one that is in.
fn put_back(map: &mut ExtentMap<u32>, k: u32, block: u32) -> Option<u32> {
    let old = map.lend(k);
    if map.is_mapped(k) {
        map.put_back(k, block);
    }
    old
}

/// Each public call once; the map joins runs and parts them.
#[test]
fn calls(rt: HostRuntime) -> Result<(), AllocError> {
    assert_eq!(rt; BLOCKS, 256);
    let mut map: ExtentMap<u32> = ExtentMap::new(rt.alloc());
    for (k, block) in [(7, 70), (5, 50), (6, 60), (255, 9)] {
        assert!(rt; put(&mut map, k, block)?, "{k}");
    }
    assert_eq!(rt; map.next_from(0), Some(5));
    assert_eq!(rt; map.lend(6), Some(60));
    assert_eq!(rt; map.lend(6), None);
    assert_eq!(rt; map.remove(6), None);
    assert_eq!(rt; map.next_from(6), Some(6));
    assert_eq!(rt; put_back(&mut map, 6, 61), None);
    assert_eq!(rt; map.remove(6), Some(61));
    assert_eq!(rt; map.next_from(6), Some(7));
    assert_eq!(rt; map.next_from(8), Some(255));
    assert_eq!(rt;
        map.into_parts().as_slice(),
        &[Some(50), Some(70), Some(9)][..]
    );
    Ok(())
}

/// Two thousand drawn calls, beside a plain table of all file blocks.
#[test]
fn as_a_table(rt: HostRuntime) -> Result<(), AllocError> {
    let mut map: ExtentMap<u32> = ExtentMap::new(rt.alloc());
    let mut table: [Option<Option<u32>>; 24] = [None; 24];
    let mut seed = 7;
    for block in 0..2000 {
        let k = draw(&mut seed, 24);
        let row = table[k as usize];
        let at = k as u32;
        match draw(&mut seed, 4) {
            0 | 1 => {
                assert_eq!(rt; put(&mut map, at, block)?, row.is_none());
                if row.is_none() {
                    table[k as usize] = Some(Some(block));
                }
            }
            2 => {
                assert_eq!(rt; map.remove(at), row.flatten());
                if row.flatten().is_some() {
                    table[k as usize] = None;
                }
            }
            _ => {
                assert_eq!(rt; map.lend(at), row.flatten());
                if row.is_some() {
                    table[k as usize] = Some(None);
                }
                if draw(&mut seed, 2) == 0 {
                    assert_eq!(rt; put_back(&mut map, at, block), None);
                    table[k as usize] = row.map(|_| Some(block));
                }
            }
        }
        let next = (at..24).find(|q| table[*q as usize].is_some());
        assert_eq!(rt; map.next_from(at), next, "{block}");
    }
    Ok(())
}
