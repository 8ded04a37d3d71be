use crate::medium::medium_of;
use crate::parts::gathered_of;
use cfs_file::NoMemory;
use cfs_image::{new_image, read_image, write_image};
use std::alloc::Global;
use std::test::Fail;

/// What the image of the parts has besides that of a new store: the tree is in the second copy of
/// the table, and that one is selected.
const WORDS: [(usize, u64); 11] = [
    (32, 1),
    (40, 0),
    (48, 0),
    (56, 0),
    (64, 0),
    (72, 0),
    (24_624, 2),
    (24_632, 1),
    (24_640, 1),
    (24_648, 2),
    (24_656, 0o777),
];

fn put_word(image: &mut Vec<u8>, at: usize, word: u64) {
    if at < image.len() && image.len() - at >= 8 {
        image[at..at + 8].copy_from_slice(&word.to_le_bytes());
    }
}

fn image_of_parts(alloc: Global) -> Result<Vec<u8>, NoMemory> {
    let mut image = new_image(alloc, 16, 1)?.into_vec();
    for (at, word) in WORDS {
        put_word(&mut image, at, word);
    }
    Ok(image)
}

#[test]
fn parts_are_gathered_into_the_image_that_was_read(rt: HostRuntime) -> Result<(), Fail> {
    let alloc = rt.alloc();
    let image = image_of_parts(alloc)?;
    let (regions, blocks) = read_image(alloc, &image)?.into_parts();
    let gathered = gathered_of(alloc, regions, blocks)?;
    let Some(medium) = medium_of(gathered) else {
        return Err("they are no store")?;
    };
    let again = write_image(alloc, &medium)?;
    assert!(rt; again.as_slice() == image.as_slice());
    Ok(())
}
