//! A crash of a whole store draws from object to object, which only this crate may call apart.
use crate::crash::{crash_blocks, crash_regions};
use crate::{FEWEST_BLOCKS, FEWEST_QUEUES, new_image, read_image};
use cfs_block::{Block, MemBlock};
use cfs_pmem::{MemRegion, Meter, Pick, Region};
use std::test::Fail;

/// Writes a gate in each of the first four slots and does not persist it.
fn write_gates(regions: &mut Vec<MemRegion>, meter: &mut Meter) {
    for region in regions.iter_mut() {
        if region.device() >= 323 && region.device() < 327 && region.len() > 0 {
            let _ = region.write(meter, 0, 7);
        }
    }
}

/// Tags the first two blocks and writes a byte of each, and does not flush them.
fn write_blocks(blocks: &mut Vec<MemBlock>, meter: &mut Meter) {
    for block in blocks.iter_mut() {
        if block.number() < 2 {
            let _ = block.set_tag(meter, 3);
            let _ = block.write(meter, 1, &[9]);
        }
    }
}

fn gate(regions: &Vec<MemRegion>, slot: usize) -> Option<u64> {
    regions.get(slot)?.words().first().copied()
}

fn tag_and_byte(blocks: &Vec<MemBlock>, number: usize) -> Option<(u64, u8)> {
    let block = blocks.get(number)?;
    Some((block.tag_word(), block.bytes().get(1).copied()?))
}

// The draws of the picks from 2 on were worked apart from this program.
#[test]
fn a_crash_goes_on_from_object_to_object(rt: HostRuntime) -> Result<(), Fail> {
    for (k, gates, contents) in [
        (0, [0, 0, 0, 0], [(0, 0), (0, 0)]),
        (1, [7, 7, 7, 7], [(3, 9), (3, 9)]),
        (2, [0, 0, 0, 0], [(3, 75), (0, 38)]),
        (3, [7, 7, 7, 0], [(0, 163), (3, 85)]),
    ] {
        let mut meter = Meter::calm(rt.alloc());
        let image = new_image(rt.alloc(), FEWEST_BLOCKS, FEWEST_QUEUES)?.into_vec();
        let (mut regions, mut blocks) = read_image(rt.alloc(), &image)?.into_parts();
        write_gates(&mut regions, &mut meter);
        write_blocks(&mut blocks, &mut meter);
        let mut pick = Pick::new(k);
        crash_regions(&mut regions, &mut pick);
        crash_blocks(&mut blocks, &mut pick);
        for (slot, want) in gates.iter().enumerate() {
            assert_eq!(rt;
                gate(&regions, 323 + slot),
                Some(*want),
                "pick {k}, slot {slot}"
            );
        }
        for (number, want) in contents.iter().enumerate() {
            assert_eq!(rt;
                tag_and_byte(&blocks, number),
                Some(*want),
                "pick {k}, block {number}"
            );
        }
    }
    Ok(())
}
