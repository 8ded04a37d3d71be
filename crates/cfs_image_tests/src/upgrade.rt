use byteorder::{ByteOrder, LittleEndian};
use cfs_image::{ImageRefusal, NAME, read_image, write_image};
use cfs_move::upgrade_bytes;
use std::alloc::Global;
use std::test::Fail;

/// How many bytes an image of version 1 has, of 16 blocks and one queue.
const OLD_LEN: usize = 190_904;

fn put_word(image: &mut Vec<u8>, offset: usize, word: u64) {
    if offset < image.len() && image.len() - offset >= 8 {
        LittleEndian::write_u64(&mut image[offset..], word);
    }
}

/// An image of version 1 of 16 blocks and one queue, with another byte in each place behind its
/// header.
fn old_image(alloc: Global) -> Result<Vec<u8>, Fail> {
    let mut image = vec![in alloc; 0; OLD_LEN]?;
    for i in 32..image.len() {
        image[i] = (i % 251 + 1) as u8;
    }
    for (offset, word) in [(0, NAME), (8, 1), (16, 16), (24, 1)] {
        put_word(&mut image, offset, word);
    }
    Ok(image)
}

/// The byte of the new image at a place, worked from the old one apart from the program: records of
/// 120 bytes from 49,208 on are records of 128 bytes there.
fn wanted(old: &[u8], at: usize) -> u8 {
    let (from, known) = match at {
        8 => return 2,
        0..49_208 => (at, true),
        49_208..57_400 => {
            let within = at - 49_208;
            (
                49_208 + within / 128 * 120 + within % 128,
                within % 128 < 120,
            )
        }
        _ => (at - 512, true),
    };
    if known {
        old.get(from).copied().unwrap_or(0)
    } else {
        0
    }
}

#[test]
fn an_old_image_is_upgraded(rt: HostRuntime) -> Result<(), Fail> {
    let old = old_image(rt.alloc())?;
    let new = upgrade_bytes(rt.alloc(), &old)?;
    assert_eq!(rt; new.len(), 191_416);
    let mut same = true;
    for (at, byte) in new.as_slice().iter().enumerate() {
        same = same && *byte == wanted(&old, at);
    }
    assert!(rt; same);
    let medium = read_image(rt.alloc(), new.as_slice())?;
    assert!(rt; write_image(rt.alloc(), &medium)? == new);
    Ok(())
}

fn damage(offset: u64, found: u64, against: u64) -> Option<ImageRefusal> {
    Some(ImageRefusal::Damaged {
        offset,
        found,
        against,
    })
}

#[test]
fn another_image_is_refused(rt: HostRuntime) -> Result<(), Fail> {
    for (at, word, len, offset, found, against) in [
        (0, NAME + 1, OLD_LEN, 0, NAME + 1, NAME),
        (8, 2, OLD_LEN, 8, 2, 1),
        (8, 0, OLD_LEN, 8, 0, 1),
        (16, 15, OLD_LEN, 16, 15, 16),
        (16, 16_385, OLD_LEN, 16, 16_385, 16_384),
        (24, 0, OLD_LEN, 24, 0, 1),
        (24, 65, OLD_LEN, 24, 65, 64),
        (16, 17, OLD_LEN, 190_904, 190_904, 195_008),
        (8, 1, 1000, 1000, 1000, 190_904),
        (8, 1, 10, 10, 10, 32),
        (8, 1, 0, 0, 0, 32),
        (8, 1, 190_903, 190_903, 190_903, 190_904),
        (8, 1, 191_416, 190_904, 191_416, 190_904),
    ] {
        let mut image = old_image(rt.alloc())?;
        put_word(&mut image, at, word);
        image.resize(len, 0)?;
        assert_eq!(rt;
            upgrade_bytes(rt.alloc(), &image).err(),
            damage(offset, found, against),
            "{word} at {at}, length {len}"
        );
    }
    Ok(())
}

#[test]
fn a_refusal_names_the_version(rt: HostRuntime) -> Result<(), Fail> {
    let mut image = old_image(rt.alloc())?;
    put_word(&mut image, 8, 2);
    let Some(refusal) = upgrade_bytes(rt.alloc(), &image).err() else {
        return Err("not refused")?;
    };
    assert_eq!(rt;
        refusal.to_string(rt.alloc())?.as_str(),
        "offset 8 found 2 against 1"
    );
    Ok(())
}
