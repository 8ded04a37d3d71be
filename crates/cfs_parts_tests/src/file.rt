use cfs_file::{
    Answer, BLOCK_LEN, Bytes, Entry, FILE_BLOCKS, FIRST_SLOT, KIND_UNIT, LONGEST_FILE,
    LONGEST_READ, LONGEST_WRITE, NoMemory, QUEUE_SLOTS, Request, Span, Word, answer_of, covers,
    file_after, overlaps, span_of,
};
use std::alloc::Global;
use std::test::Fail;

fn write(alloc: Global, offset: u64, text: &[u8]) -> Result<Request, NoMemory> {
    let bytes = Bytes::from_slice(alloc, text)?;
    Ok(Request::Write { offset, bytes })
}

// Truncate to 5, a write at 1, an append, a write past the end, truncate to 2.
fn requests(alloc: Global) -> Result<Vec<Request>, NoMemory> {
    let appended = Bytes::from_slice(alloc, b"!")?;
    let mut requests = Vec::new(alloc);
    requests.push(Request::Truncate { length: 5 })?;
    requests.push(write(alloc, 1, b"XY")?)?;
    requests.push(Request::Append { bytes: appended })?;
    requests.push(write(alloc, 8, b"z")?)?;
    requests.push(Request::Truncate { length: 2 })?;
    Ok(requests)
}

fn log_of(alloc: Global, requests: Vec<Request>) -> Result<Vec<Entry>, NoMemory> {
    let mut log = Vec::new(alloc);
    let mut place: u64 = 1;
    for request in requests {
        log.push(Entry {
            ino: 2,
            place,
            caller: 1,
            line: place,
            request,
        })?;
        place = place.saturating_add(1);
    }
    Ok(log)
}

#[test]
fn a_file_follows_its_log(rt: HostRuntime) -> Result<(), Fail> {
    let alloc = rt.alloc();
    let base = Bytes::from_slice(alloc, b"abc")?;
    let log = log_of(alloc, requests(alloc)?)?;
    for (count, expected) in [
        (0, b"abc".as_slice()),
        (1, b"abc\0\0".as_slice()),
        (2, b"aXY\0\0".as_slice()),
        (3, b"aXY\0\0!".as_slice()),
        (4, b"aXY\0\0!\0\0z".as_slice()),
        (5, b"aX".as_slice()),
    ] {
        let entries = log.as_slice().get(..count).ok_or("no such entries")?;
        assert_eq!(rt;
            file_after(alloc, &base, entries)?.as_slice(),
            expected,
            "after {count}"
        );
    }
    Ok(())
}

#[test]
fn a_read_gives_the_bytes_that_are_there(rt: HostRuntime) -> Result<(), Fail> {
    let alloc = rt.alloc();
    let file = Bytes::from_slice(alloc, b"hi")?;
    let log = Vec::new(alloc);
    for (offset, count, expected) in [
        (0, 10, b"hi".as_slice()),
        (1, 1, b"i".as_slice()),
        (2, 10, b"".as_slice()),
        (u64::MAX, u64::MAX, b"".as_slice()),
    ] {
        let request = Request::Read { offset, count };
        let got = answer_of(alloc, &file, log.as_slice(), &request)?;
        let expected = Bytes::from_slice(alloc, expected)?;
        assert_eq!(rt; got, Answer::Got(expected), "{count} from {offset}");
    }
    Ok(())
}

#[test]
fn a_word_gives_its_bytes_back(rt: HostRuntime) -> Result<(), Fail> {
    let alloc = rt.alloc();
    let word = Word::from_slice(alloc, b"d")?;
    assert_eq!(rt; Word::from_vec(word.clone()?.into_vec()), word);
    let mut bytes = Bytes::from_vec(word.into_vec());
    bytes.put(2, b"e")?;
    assert_eq!(rt; bytes.as_slice(), b"d\0e".as_slice());
    bytes.resize(0)?;
    assert!(rt; bytes.is_empty() && Bytes::new(alloc).len() == 0);
    Ok(())
}

#[test]
fn a_span_has_the_positions_that_a_request_touches(rt: HostRuntime) {
    for (request, length, expected) in [
        (Request::Truncate { length: 6 }, 0, Span::From { from: 6 }),
        (
            Request::Read {
                offset: 2,
                count: u64::MAX,
            },
            5,
            Span::Range { from: 2, to: 5 },
        ),
        (
            Request::Read {
                offset: 5,
                count: 1,
            },
            5,
            Span::Nothing,
        ),
        (Request::Sync, 5, Span::Nothing),
    ] {
        assert_eq!(rt; span_of(&request, length), expected, "{request:?}");
    }
}

fn range(from: u64, to: u64) -> Span {
    Span::Range { from, to }
}

#[test]
fn spans_meet_and_cover_by_position(rt: HostRuntime) {
    for (a, b, meet, a_covers) in [
        (range(0, 4), range(4, 8), false, false),
        (range(0, 5), range(4, 8), true, false),
        (range(0, 8), range(2, 4), true, true),
        (range(0, 4), range(3, 3), false, true),
        (range(0, u64::MAX), Span::From { from: 4 }, true, false),
        (Span::From { from: 4 }, range(4, 8), true, true),
        (Span::Nothing, range(0, 1), false, false),
    ] {
        assert_eq!(rt; overlaps(&a, &b), meet, "{a:?} and {b:?}");
        assert_eq!(rt; covers(&a, &b), a_covers, "{a:?} over {b:?}");
    }
}

#[test]
fn the_sizes_are_these(rt: HostRuntime) {
    for (size, expected) in [
        (BLOCK_LEN, 4096),
        (FILE_BLOCKS, 256),
        (LONGEST_FILE, 1_048_576),
        (LONGEST_WRITE, 65_536),
        (LONGEST_READ, 4096),
        (KIND_UNIT, 65_536),
    ] {
        assert_eq!(rt; size, expected);
    }
    assert_eq!(rt; (FIRST_SLOT, QUEUE_SLOTS), (323, 16));
}
