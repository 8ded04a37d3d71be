use cfs_image::{new_image, read_image};
use cfs_pmem::{DeviceFault, Meter};
use cfs_store_words::{SurveyFailed, survey_store};
use cfs_survey::{Fault, StoreWords, Survey};
use std::alloc::Global;
use std::test::Fail;

/// The mode of the file's node, its size, the tags of two blocks, and the words of a slot, in the
/// image of a store of 16 blocks and one queue.
const MODE: usize = 168;

const SIZE: usize = 57_408;

const TAG: usize = 138_064;

const SLOT_1: usize = 63_592;

/// The root with the file 2 under the name `a`, in the table that is selected; its block 0 in block
/// 3; a write of five bytes in slot 1, with a word of its payload; and a block of inode 9, which is
/// none.
const WITH_FILE: [(usize, u64); 15] = [
    (40, 3),
    (144, 2),
    (152, 1),
    (160, 1),
    (MODE, 0o644),
    (192, 1),
    (200, 97),
    (SIZE, 5),
    (TAG, 131_073),
    (TAG + 4104, 589_825),
    (SLOT_1, 1),
    (SLOT_1 + 16, 2),
    (SLOT_1 + 32, 65_541),
    (SLOT_1 + 40, 7),
    (SLOT_1 + 48, 99),
];

/// The image of a new store with these words, and then those.
fn image_with(alloc: Global, words: &[(usize, u64)]) -> Result<Vec<u8>, Fail> {
    let mut image = new_image(alloc, 16, 1)?.into_vec();
    for (at, word) in WITH_FILE.iter().chain(words) {
        if *at < image.len() && image.len() - *at >= 8 {
            image[*at..*at + 8].copy_from_slice(&word.to_le_bytes());
        }
    }
    Ok(image)
}

/// What is read of the store that an image holds, on devices in memory.
fn survey_of(
    alloc: Global,
    image: &[u8],
    power: &mut Meter,
) -> Result<Result<(StoreWords, Survey), SurveyFailed>, Fail> {
    let medium = read_image(alloc, image)?;
    let (mut regions, mut blocks) = medium.into_parts();
    Ok(survey_store(alloc, &mut regions, &mut blocks, power))
}

#[test]
fn the_words_are_those_of_the_devices(rt: HostRuntime) -> Result<(), Fail> {
    let alloc = rt.alloc();
    let image = image_with(alloc, &[])?;
    let (words, survey) = match survey_of(alloc, &image, &mut Meter::calm(alloc))? {
        Ok(found) => found,
        Err(_) => Err("refused")?,
    };
    assert_eq!(rt; words.selector, 0);
    assert_eq!(rt; words.table.len(), 3073);
    assert_eq!(rt; words.table.first().copied(), Some(3));
    assert_eq!(rt; words.table.get(13).copied(), Some(2));
    assert_eq!(rt; words.journal.len(), 64);
    assert_eq!(rt; words.sizes.len(), 256);
    assert_eq!(rt; words.sizes.get(1).copied(), Some(5));
    assert_eq!(rt; words.slots.len(), 16);
    assert_eq!(rt; words.slots.first().copied(), Some([0; 6]));
    assert_eq!(rt; words.slots.get(1).copied(), Some([1, 0, 2, 0, 65_541, 7]));
    assert_eq!(rt; words.tags.len(), 16);
    assert_eq!(rt; words.tags.get(3).copied(), Some(131_073));
    assert_eq!(rt; words.tags.get(4).copied(), Some(589_825));
    assert_eq!(rt; survey.tree.nodes.len(), 2);
    assert_eq!(rt; survey.entries.len(), 1);
    assert_eq!(rt; survey.blocks.get(&131_073).copied(), Some(3));
    Ok(())
}

/// Why no store is told of an image with these words, where the `k`th reading step of a device is
/// refused; none is where that is 0.
fn refusal(
    alloc: Global,
    words: &[(usize, u64)],
    device: u32,
    k: u64,
) -> Result<Option<SurveyFailed>, Fail> {
    let image = image_with(alloc, words)?;
    let mut power = Meter::calm(alloc);
    if k > 0 {
        power.plan(device, false, k)?;
    }
    Ok(survey_of(alloc, &image, &mut power)?.err())
}

fn damage(offset: u64, found: u64, against: u64) -> Option<SurveyFailed> {
    Some(SurveyFailed::Damaged(Fault {
        offset,
        found,
        against,
    }))
}

// Each word is read once: the step behind its last one is not asked for. The table that is not
// selected and the payloads of slots are not read.
#[test]
fn a_device_that_fails_ends_it(rt: HostRuntime) -> Result<(), Fail> {
    let alloc = rt.alloc();
    for (device, steps) in [
        (0, 1),
        (1, 3073),
        (2, 0),
        (3, 16),
        (66, 16),
        (67, 1),
        (322, 1),
        (323, 6),
        (338, 6),
        (339, 1),
        (354, 1),
    ] {
        if steps > 0 {
            assert_eq!(rt;
                refusal(alloc, &[], device, steps)?,
                Some(SurveyFailed::Failed(DeviceFault)),
                "device {device}"
            );
        }
        assert_eq!(rt;
            refusal(alloc, &[], device, u64::saturating_add(steps, 1))?,
            None,
            "device {device}"
        );
    }
    Ok(())
}

#[test]
fn the_first_damage_is_named(rt: HostRuntime) -> Result<(), Fail> {
    let alloc = rt.alloc();
    for (words, told) in [
        ([(MODE, 512), (SIZE, 1_048_577)], damage(168, 512, 511)),
        // the other table is selected, which has no root
        ([(32, 1), (SIZE, 1_048_577)], damage(24_624, 0, 2)),
        (
            [(SIZE, 1_048_577), (TAG, 0)],
            damage(57_408, 1_048_577, 1_048_576),
        ),
        // the file has no block for the write of slot 1
        ([(TAG, 0), (32, 0)], damage(63_616, 0, 0)),
    ] {
        assert_eq!(rt; refusal(alloc, &words, 0, 0)?, told);
    }
    Ok(())
}
