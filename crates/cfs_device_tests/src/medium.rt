use cfs_core::Items;
use cfs_file::{Bytes, NoMemory};
use cfs_medium::{BlockFound, recover};
use std::alloc::Global;
use std::test::Fail;

/// The tag of block 0 of inode 5, and of its block 1.
const FIRST_TAG: u64 = 327_681;

const SECOND_TAG: u64 = 327_682;

/// The kind of a write with one byte, and of a truncate.
const ONE_BYTE: u64 = 65_537;

const CUT: u64 = 131_072;

/// The kind of the head of a long write, and what its set of tails is multiplied by.
const HEAD: u64 = 196_608;

const TAILS: u64 = 4_294_967_296;

/// A slot's gate, mark, inode number, offset, kind with length, and first eight bytes.
type Row = (u64, u64, u64, u64, u64, u64);

/// Text as a word, the first byte lowest.
const fn word(text: &[u8; 8]) -> u64 {
    u64::from_le_bytes(*text)
}

fn slot(alloc: Global, row: &Row) -> Result<Items<u64>, NoMemory> {
    Items::from_slice(alloc, &[row.0, row.1, row.2, row.3, row.4, 1, row.5, 0])
}

fn slots(alloc: Global, rows: &[Row]) -> Result<Vec<Items<u64>>, NoMemory> {
    let mut slots = Vec::new(alloc);
    for row in rows {
        slots.push(slot(alloc, row)?)?;
    }
    Ok(slots)
}

fn block(alloc: Global, tag: u64, text: &[u8]) -> Result<BlockFound, NoMemory> {
    let bytes = Bytes::from_slice(alloc, text)?;
    Ok(BlockFound { tag, bytes })
}

/// A free block, and two of inode 5 in falling order.
fn blocks(alloc: Global) -> Result<Vec<BlockFound>, NoMemory> {
    let mut blocks = Vec::new(alloc);
    blocks.push(block(alloc, 0, b"free")?)?;
    blocks.push(block(alloc, SECOND_TAG, b"next")?)?;
    blocks.push(block(alloc, FIRST_TAG, b"abcdef")?)?;
    Ok(blocks)
}

#[test]
fn a_store_recovers_its_file(rt: HostRuntime) -> Result<(), Fail> {
    let alloc = rt.alloc();
    let blocks = blocks(alloc)?;
    let x = word(b"xxx\0\0\0\0\0");
    let y = word(b"yy\0\0\0\0\0\0");
    let none: Row = (0, 0, 0, 0, 0, 0);
    for (name, ino, size, rows, expected) in [
        ("stored bytes alone", 5, 3, [none, none], b"abc".as_slice()),
        (
            "an inode without blocks",
            6,
            2,
            [none, none],
            b"\0\0".as_slice(),
        ),
        (
            "two writes that overlap, the later one in the first slot",
            5,
            3,
            [(9, 0, 5, 1, ONE_BYTE + 1, y), (4, 0, 5, 0, ONE_BYTE + 2, x)],
            b"xyy".as_slice(),
        ),
        (
            "the same with the gates the other way round",
            5,
            3,
            [(4, 0, 5, 1, ONE_BYTE + 1, y), (9, 0, 5, 0, ONE_BYTE + 2, x)],
            b"xxx".as_slice(),
        ),
        (
            "a truncate",
            5,
            4,
            [(7, 0, 5, 2, CUT, 0), none],
            b"ab".as_slice(),
        ),
        (
            "a write past a truncate",
            5,
            6,
            [(8, 0, 5, 4, ONE_BYTE, x), (7, 0, 5, 2, CUT, 0)],
            b"ab\0\0x".as_slice(),
        ),
        (
            "a marked slot",
            5,
            3,
            [(4, 1, 5, 0, ONE_BYTE + 2, x), (9, 0, 5, 1, ONE_BYTE + 1, y)],
            b"ayy".as_slice(),
        ),
        (
            "slots of another inode and with a closed gate",
            5,
            3,
            [(4, 0, 6, 0, ONE_BYTE + 2, x), (0, 0, 5, 1, ONE_BYTE + 1, y)],
            b"abc".as_slice(),
        ),
    ] {
        let slots = slots(alloc, &rows)?;
        let file = recover(alloc, ino, size, slots.as_slice(), blocks.as_slice())?;
        assert_eq!(rt; file.as_slice(), expected, "{name}");
    }
    Ok(())
}

#[test]
fn a_file_goes_on_in_its_next_block(rt: HostRuntime) -> Result<(), Fail> {
    let alloc = rt.alloc();
    let blocks = blocks(alloc)?;
    let file = recover(alloc, 5, 4098, &[], blocks.as_slice())?;
    assert_eq!(rt; file.len(), 4098);
    assert_eq!(rt; file.part(4094, 9), b"\0\0ne".as_slice());
    Ok(())
}

// The head stands in slot 2 of queue 1, its tails in slots 4 and 9 of the same queue; slot 4 of
// queue 0 is none of them. Slots of two words of payload stand for those of 512.
#[test]
fn a_long_write_is_read_from_its_head_and_its_tails(rt: HostRuntime) -> Result<(), Fail> {
    let alloc = rt.alloc();
    let blocks = blocks(alloc)?;
    let none: Row = (0, 0, 0, 0, 0, 0);
    let tail = |text: &[u8; 8]| (0, 0, 5, 0, 262_160, u64::from_le_bytes(*text));
    for (length, expected) in [
        (
            36,
            b"a0123456\0\0\0\0\0\0\0\0\0ABCDEFGH\0\0\0\0\0\0\0\0stuv".as_slice(),
        ),
        (17, b"a0123456\0\0\0\0\0\0\0\0\0A".as_slice()),
    ] {
        let mut rows = [none; 32];
        let set = TAILS * 528;
        rows[18] = (7, 0, 5, 1, set + HEAD + length - 1, word(b"0123456\0"));
        rows[20] = tail(b"ABCDEFGH");
        rows[25] = tail(b"stuvwxyz");
        rows[4] = tail(b"nobody's");
        let slots = slots(alloc, &rows)?;
        let file = recover(alloc, 5, 3, slots.as_slice(), blocks.as_slice())?;
        assert_eq!(rt; file.as_slice(), expected, "{length} bytes");
    }
    Ok(())
}
