use byteorder::{ByteOrder, LittleEndian};
use cfs_image::{
    FEWEST_BLOCKS, FEWEST_QUEUES, FIRST_SLOT, ImageRefusal, MOST_BLOCKS, MOST_QUEUES, NAME,
    StoreSize, VERSION, Version, check_header, image_len, new_image, range_of, read_image,
    region_at, region_words, write_image,
};
use cfs_pmem::Pick;
use std::alloc::Global;
use std::test::Fail;

/// The words of a new image of 16 blocks and one queue that are not zero: the header, the next
/// inode number, and the root's record.
const NEW_WORDS: [(usize, u64); 9] = [
    (0, NAME),
    (8, 2),
    (16, 16),
    (24, 1),
    (40, 2),
    (48, 1),
    (56, 1),
    (64, 2),
    (72, 0o777),
];

fn smallest(alloc: Global) -> Result<Vec<u8>, Fail> {
    Ok(new_image(alloc, 16, 1)?.into_vec())
}

fn put_word(image: &mut Vec<u8>, offset: usize, word: u64) {
    if offset < image.len() && image.len() - offset >= 8 {
        LittleEndian::write_u64(&mut image[offset..], word);
    }
}

fn word_at(image: &Vec<u8>, offset: usize) -> Option<u64> {
    let rest = image.get(offset..)?;
    if rest.len() < 8 {
        None
    } else {
        Some(LittleEndian::read_u64(rest))
    }
}

#[test]
fn a_new_image_is_zero_but_for_the_root(rt: HostRuntime) -> Result<(), Fail> {
    let image = smallest(rt.alloc())?;
    assert_eq!(rt; image.len(), 191_416);
    assert_eq!(rt; image.get(..8), Some(b"CROSSFS1".as_slice()));
    let mut rest = image;
    for (offset, word) in NEW_WORDS {
        assert_eq!(rt; word_at(&rest, offset), Some(word), "at {offset}");
        put_word(&mut rest, offset, 0);
    }
    assert!(rt; rest.iter().all(|byte| *byte == 0));
    Ok(())
}

#[test]
fn devices_stand_in_order(rt: HostRuntime) {
    for (device, at, words) in [
        (0, 32, 1),
        (1, 40, 3073),
        (2, 24_624, 3073),
        (3, 49_208, 16),
        (66, 57_272, 16),
        (67, 57_400, 1),
        (322, 59_440, 1),
        (323, 59_448, 518),
        (338, 121_608, 518),
        (1346, 4_298_760, 518),
    ] {
        assert_eq!(rt;
            (region_at(device), region_words(device)),
            (at, words),
            "device {device}"
        );
    }
    for (device, range) in [
        (0, (32, 8)),
        (322, (59_440, 8)),
        (338, (121_608, 4144)),
        (339, (125_752, 4104)),
        (354, (187_312, 4104)),
    ] {
        assert_eq!(rt; range_of(1, device), range, "device {device}");
    }
    assert_eq!(rt; image_len(16, 1), 191_416);
    assert_eq!(rt; image_len(16_384, 64), 71_542_840);
}

fn refusal(alloc: Global, image: &[u8]) -> Option<ImageRefusal> {
    read_image(alloc, image).err()
}

fn damage(offset: u64, found: u64, against: u64) -> Option<ImageRefusal> {
    Some(ImageRefusal::Damaged {
        offset,
        found,
        against,
    })
}

#[test]
fn an_image_that_was_cut_is_refused(rt: HostRuntime) -> Result<(), Fail> {
    let mut image = smallest(rt.alloc())?;
    image.push(0)?;
    for (len, offset, against) in [
        (0, 0, 32),
        (10, 10, 32),
        (31, 31, 32),
        (32, 32, 191_416),
        (1000, 1000, 191_416),
        (191_415, 191_415, 191_416),
        (191_417, 191_416, 191_416),
    ] {
        let cut = image.get(..len).unwrap_or(&[]);
        assert_eq!(rt;
            refusal(rt.alloc(), cut),
            damage(offset, len as u64, against),
            "length {len}"
        );
    }
    assert!(rt; refusal(rt.alloc(), image.get(..191_416).unwrap_or(&[])).is_none());
    Ok(())
}

// A bound that holds is passed, and the length is what fails.
#[test]
fn a_header_is_checked_at_its_bounds(rt: HostRuntime) -> Result<(), Fail> {
    for (at, word, offset, found, against) in [
        (0, NAME + 1, 0, NAME + 1, NAME),
        (8, 0, 8, 0, 2),
        (8, 1, 8, 1, 2),
        (8, 3, 8, 3, 2),
        (16, 15, 16, 15, 16),
        (16, 17, 191_416, 191_416, 195_520),
        (16, 16_384, 191_416, 191_416, 67_365_688),
        (16, 16_385, 16, 16_385, 16_384),
        (24, 0, 24, 0, 1),
        (24, 2, 191_416, 191_416, 257_720),
        (24, 64, 191_416, 191_416, 4_368_568),
        (24, 65, 24, 65, 64),
        (24, u64::MAX, 24, u64::MAX, 64),
    ] {
        let mut image = smallest(rt.alloc())?;
        put_word(&mut image, at, word);
        assert_eq!(rt;
            refusal(rt.alloc(), &image),
            damage(offset, found, against),
            "{word} at {at}"
        );
    }
    Ok(())
}

#[test]
fn the_bounds_are_these(rt: HostRuntime) {
    assert_eq!(rt; (NAME, VERSION), (0x3153_4653_534f_5243, 2));
    assert_eq!(rt; (FEWEST_BLOCKS, MOST_BLOCKS), (16, 16_384));
    assert_eq!(rt; (FEWEST_QUEUES, MOST_QUEUES, FIRST_SLOT), (1, 64, 323));
}

// The header of version 1: the same words, a lower version, and 512 bytes less behind them.
#[test]
fn a_header_of_the_first_version_is_checked(rt: HostRuntime) -> Result<(), Fail> {
    let mut image = smallest(rt.alloc())?;
    put_word(&mut image, 8, 1);
    let whole = image.as_slice();
    let cut = whole.get(..190_904).unwrap_or(&[]);
    let size = StoreSize {
        blocks: 16,
        queues: 1,
    };
    assert_eq!(rt; check_header(cut, Version::First).ok(), Some(size));
    for (bytes, version, refused) in [
        (whole, Version::First, damage(190_904, 191_416, 190_904)),
        (cut, Version::Present, damage(8, 1, 2)),
    ] {
        assert_eq!(rt; check_header(bytes, version).err(), refused, "{version:?}");
    }
    assert_eq!(rt;
        (Version::First.number(), Version::First.record_words()),
        (1, 15)
    );
    Ok(())
}

#[test]
fn a_refusal_names_what_it_found(rt: HostRuntime) -> Result<(), Fail> {
    let image = smallest(rt.alloc())?;
    for (len, text) in [
        (1000, "offset 1000 found 1000 against 191416"),
        (10, "offset 10 found 10 against 32"),
    ] {
        let Some(refusal) = refusal(rt.alloc(), image.get(..len).unwrap_or(&[])) else {
            return Err("not refused")?;
        };
        assert_eq!(rt; refusal.to_string(rt.alloc())?.as_str(), text);
    }
    Ok(())
}

/// An image of 17 blocks and two queues with another byte in each place of its objects.
fn full(alloc: Global) -> Result<Vec<u8>, Fail> {
    let mut image = new_image(alloc, 17, 2)?.into_vec();
    for i in 32..image.len() {
        image[i] = (i % 251) as u8;
    }
    Ok(image)
}

#[test]
fn an_image_is_read_and_written_again(rt: HostRuntime) -> Result<(), Fail> {
    let image = full(rt.alloc())?;
    let medium = read_image(rt.alloc(), &image)?;
    assert_eq!(rt;
        (medium.queues(), medium.regions.len(), medium.blocks.len()),
        (2, 355, 17)
    );
    let written = write_image(rt.alloc(), &medium)?;
    assert!(rt; written.as_slice() == image.as_slice());
    let again = write_image(rt.alloc(), &read_image(rt.alloc(), written.as_slice())?)?;
    assert!(rt; again == written);
    Ok(())
}

#[test]
fn a_crash_leaves_what_is_durable_whole(rt: HostRuntime) -> Result<(), Fail> {
    let image = full(rt.alloc())?;
    let mut medium = read_image(rt.alloc(), &image)?;
    let mut pick = Pick::new(2);
    medium.crash(&mut pick);
    assert_eq!(rt; pick, Pick::Drawn(2));
    assert!(rt; write_image(rt.alloc(), &medium)?.as_slice() == image.as_slice());
    Ok(())
}
