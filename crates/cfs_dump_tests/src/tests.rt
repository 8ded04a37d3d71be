use cfs_dir::Path;
use cfs_dump::dump_file;
use cfs_file::Bytes;
use cfs_image::{ImageRefusal, new_image};
use std::alloc::Global;
use std::test::Fail;

/// A word of an image, and where it stands.
type Put = (usize, u64);

/// Where the size of the file stands, the tag and the bytes of its block, the words of two slots,
/// and the first record of the journal, in the image of a store of 16 blocks and one queue.
const SIZE: usize = 57_408;

const TAG: usize = 138_064;

const BYTES: usize = TAG + 8;

const SLOT_0: usize = 59_448;

const SLOT_1: usize = 63_592;

const RECORD: usize = 49_208;

/// The file 2 under the name `a`: five bytes in block 3.
const A_FILE: [Put; 10] = [
    (40, 3),
    (144, 2),
    (152, 1),
    (160, 1),
    (168, 0o644),
    (192, 1),
    (200, 97),
    (SIZE, 5),
    (TAG, 131_073),
    // `hello`
    (BYTES, 0x6f_6c6c_6568),
];

/// A write in slot 0: two bytes at an offset, under a gate.
fn a_write(gate: u64, offset: u64) -> [Put; 6] {
    [
        (SLOT_0, gate),
        (SLOT_0 + 16, 2),
        (SLOT_0 + 24, offset),
        (SLOT_0 + 32, 65_538),
        (SLOT_0 + 40, 1),
        (SLOT_0 + 48, u64::from(u16::from_le_bytes(*b"XY"))),
    ]
}

/// A truncate in slot 1: to a length, under a gate.
fn a_truncate(gate: u64, length: u64) -> [Put; 5] {
    [
        (SLOT_1, gate),
        (SLOT_1 + 16, 2),
        (SLOT_1 + 24, length),
        (SLOT_1 + 32, 131_072),
        (SLOT_1 + 40, 1),
    ]
}

fn put_words(image: &mut Vec<u8>, words: &[Put]) {
    for (at, word) in words {
        if *at < image.len() && image.len() - *at >= 8 {
            image[*at..*at + 8].copy_from_slice(&word.to_le_bytes());
        }
    }
}

/// What is dumped of a path in the image with the file and these words.
fn dumped(alloc: Global, path: &str, words: &[&[Put]]) -> Result<Option<Bytes>, Fail> {
    let mut image = new_image(alloc, 16, 1)?.into_vec();
    put_words(&mut image, &A_FILE);
    for some in words {
        put_words(&mut image, some);
    }
    let path = Path::parse(alloc, path.as_bytes())?;
    let file = dump_file(alloc, &image, &path)?;
    Ok(file)
}

/// Whether the file has so many zeros and then these bytes.
fn is_file(file: &Option<Bytes>, zeros: usize, rest: &str) -> bool {
    match file {
        Some(file) => {
            let bytes = file.as_slice();
            let front = bytes.get(..zeros).unwrap_or(&[]);
            let back = bytes.get(zeros..).unwrap_or(&[]);
            front.len() == zeros && front.iter().all(|byte| *byte == 0) && back == rest.as_bytes()
        }
        None => false,
    }
}

#[test]
fn a_file_is_what_a_mount_would_find(rt: HostRuntime) -> Result<(), Fail> {
    let none: &[Put] = &[];
    let wrote = a_write(1, 1);
    let behind = a_write(1, 6);
    let last = a_write(2, 3);
    let cut = a_truncate(1, 1);
    let first = a_write(1, 3);
    let cut_last = a_truncate(2, 4);
    // a write of 4096 zeros and two letters, which are in slot 1, over two blocks
    let long = [
        (SLOT_0, 1),
        (SLOT_0 + 16, 2),
        (SLOT_0 + 32, 8_590_135_297),
        (SLOT_0 + 40, 1),
        (SLOT_1 + 48, u64::from(u16::from_le_bytes(*b"hi"))),
        (TAG + 4104, 131_074),
    ];
    for (words, others, zeros, rest) in [
        (none, none, 0, "hello"),
        // the size counts, not what the block has
        (&[(SIZE, 7)], none, 0, "hello\0\0"),
        (&[(SIZE, 2)], none, 0, "he"),
        (&[(SIZE, 0)], none, 0, ""),
        // holes: no block at all, and none for the first 4096 bytes
        (&[(TAG, 0)], none, 5, ""),
        (&[(SIZE, 4099), (TAG, 131_074)], none, 4096, "hel"),
        // a write and a truncate that are not carried out yet
        (&wrote, none, 0, "hXYlo"),
        (&behind, none, 0, "hello\0XY"),
        (&cut, none, 0, "h"),
        (&long, none, 4096, "hi"),
        // both, in order of their gates
        (&last, &cut, 0, "h\0\0XY"),
        (&first, &cut_last, 0, "helX"),
        // a no-op, a closed gate, and a write of another file
        (&wrote, &[(SLOT_0 + 8, 1)], 0, "hello"),
        (&wrote, &[(SLOT_0, 0)], 0, "hello"),
        (&wrote, &[(SLOT_0 + 16, 9)], 0, "hello"),
    ] {
        let file = dumped(rt.alloc(), "/a", &[words, others])?;
        assert!(rt; is_file(&file, zeros, rest), "{zeros} {rest}");
    }
    Ok(())
}

#[test]
fn what_is_no_file_is_none(rt: HostRuntime) -> Result<(), Fail> {
    let none: &[Put] = &[];
    for (path, words) in [
        ("/", none),
        ("/b", none),
        ("/a/a", none),
        // removed by a record of the journal, or a directory
        (
            "/a",
            &[
                (RECORD, 1),
                (RECORD + 8, 2),
                (RECORD + 16, 1),
                (RECORD + 24, 2),
            ],
        ),
        ("/a", &[(160, 2), (SIZE, 0), (TAG, 0)]),
    ] {
        let file = dumped(rt.alloc(), path, &[words])?;
        assert!(rt; file.is_none(), "{path}");
    }
    Ok(())
}

#[test]
fn a_damaged_image_is_refused(rt: HostRuntime) -> Result<(), Fail> {
    let alloc = rt.alloc();
    let mut image = new_image(alloc, 16, 1)?.into_vec();
    put_words(&mut image, &[(8, 3)]);
    let path = Path::parse(alloc, b"/a")?;
    assert_eq!(rt;
        dump_file(alloc, &image, &path).err(),
        Some(ImageRefusal::Damaged {
            offset: 8,
            found: 3,
            against: 2,
        })
    );
    Ok(())
}
