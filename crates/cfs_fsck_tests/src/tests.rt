use cfs_fsck::{Report, check_image};
use cfs_image::{ImageRefusal, new_image};
use std::alloc::Global;
use std::test::Fail;

/// Where the mode of the file's node stands, its size, the tag of its block, and the words of three
/// slots, in the image of a store of 16 blocks and one queue.
const MODE: usize = 168;

const SIZE: usize = 57_408;

const TAG: usize = 138_064;

const SLOT_0: usize = 59_448;

const SLOT_1: usize = 63_592;

const SLOT_2: usize = 67_736;

/// The first record of the journal.
const RECORD: usize = 49_208;

/// The root with the file 2 under the name `a`; its block 0 in block 3; a write of five bytes in
/// slot 0, a no-op of it in slot 1; a slot and a block of inode 9, which is none.
const WITH_FILE: [(usize, u64); 20] = [
    (40, 3),
    (144, 2),
    (152, 1),
    (160, 1),
    (MODE, 0o644),
    (192, 1),
    (200, 97),
    (SIZE, 5),
    (TAG, 131_073),
    (TAG + 4104, 589_825),
    (SLOT_0, 1),
    (SLOT_0 + 16, 2),
    (SLOT_0 + 32, 65_541),
    (SLOT_0 + 40, 1),
    (SLOT_1, 2),
    (SLOT_1 + 8, 1),
    (SLOT_1 + 16, 2),
    (SLOT_2, 3),
    (SLOT_2 + 8, 1),
    (SLOT_2 + 16, 9),
];

/// The same, with one more file by a record of the journal, under the name `b`.
const WITH_RECORD: [(usize, u64); 8] = [
    (RECORD, 1),
    (RECORD + 8, 1),
    (RECORD + 16, 2),
    (RECORD + 24, 3),
    (RECORD + 32, 1),
    (RECORD + 40, 1),
    (RECORD + 72, 1),
    (RECORD + 80, 98),
];

fn put_words(image: &mut Vec<u8>, words: &[(usize, u64)]) {
    for (at, word) in words {
        if *at < image.len() && image.len() - *at >= 8 {
            image[*at..*at + 8].copy_from_slice(&word.to_le_bytes());
        }
    }
}

/// The image of a new store with these words, and then those.
fn image_with(
    alloc: Global,
    words: &[(usize, u64)],
    others: &[(usize, u64)],
) -> Result<Vec<u8>, Fail> {
    let mut image = new_image(alloc, 16, 1)?.into_vec();
    put_words(&mut image, words);
    put_words(&mut image, others);
    Ok(image)
}

#[test]
fn what_a_store_holds_is_counted(rt: HostRuntime) -> Result<(), Fail> {
    let alloc = rt.alloc();
    let none: &[(usize, u64)] = &[];
    for (words, others, counts) in [
        (none, none, [1, 0, 0, 0]),
        (WITH_FILE.as_slice(), none, [2, 1, 1, 1]),
        (WITH_FILE.as_slice(), WITH_RECORD.as_slice(), [3, 1, 1, 1]),
        // the table that is not selected is not looked at
        (none, [(24_624, 77)].as_slice(), [1, 0, 0, 0]),
        // the mark makes a no-op of the write, and without its gate there is nothing
        (
            WITH_FILE.as_slice(),
            [(SLOT_0 + 8, 1)].as_slice(),
            [2, 0, 2, 1],
        ),
        (WITH_FILE.as_slice(), [(SLOT_0, 0)].as_slice(), [2, 0, 1, 1]),
    ] {
        let image = image_with(alloc, words, others)?;
        let [nodes, live, noop, blocks] = counts;
        assert_eq!(rt;
            check_image(alloc, &image),
            Ok(Report {
                nodes,
                live,
                noop,
                blocks,
            })
        );
    }
    Ok(())
}

#[test]
fn the_first_fault_is_named(rt: HostRuntime) -> Result<(), Fail> {
    let alloc = rt.alloc();
    for (words, offset, found, against) in [
        // the version, and the selector, which selects a table of zeros
        ([(8, 3), (MODE, 512)], 8, 3, 2),
        ([(32, 1), (SIZE, 1_048_577)], 24_624, 0, 2),
        // each part, with a fault in one behind it
        ([(MODE, 512), (RECORD, 5)], MODE as u64, 512, 511),
        ([(RECORD, 5), (SIZE, 1_048_577)], RECORD as u64, 5, 0),
        (
            [(SIZE, 1_048_577), (TAG, 131_072)],
            SIZE as u64,
            1_048_577,
            1_048_576,
        ),
        ([(TAG, 131_072), (SLOT_0 + 8, 2)], TAG as u64, 131_072, 256),
        ([(SLOT_0 + 8, 2), (SLOT_1 + 8, 2)], 59_456, 2, 1),
        // a write without its block
        ([(TAG, 0), (SLOT_1 + 8, 2)], 59_472, 0, 0),
    ] {
        let image = image_with(alloc, &WITH_FILE, &words)?;
        assert_eq!(rt;
            check_image(alloc, &image).err(),
            Some(ImageRefusal::Damaged {
                offset,
                found,
                against,
            })
        );
    }
    Ok(())
}
