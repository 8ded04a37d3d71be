use arrayvec::ArrayVec;
use cfs_dir::Posix;
use cfs_file::{Bytes, NoMemory, QUEUE_SLOTS};
use cfs_print::{Entries, Letter, Listed, OutLine, Places, Printed, print_line};
use std::alloc::Global;
use std::test::Fail;

/// The answers without lists, by the numbers of their lines below.
fn answer_of(number: u64) -> Printed {
    match number {
        1 => Printed::Opened {
            place: 3,
            fd: 1,
            ino: 2,
        },
        2 => Printed::Made { place: 3, ino: 2 },
        3 => Printed::Named { place: 3 },
        4 => Printed::Wrote {
            ino: 2,
            place: 3,
            offset: 5,
            count: 7,
        },
        5 => Printed::WroteNothing,
        6 => Printed::Placed { ino: 2, place: 3 },
        7 => Printed::Sought { offset: 5 },
        8 => Printed::Left { blocks: 4 },
        9 => Printed::Fine,
        10 => Printed::More,
        11 => Printed::Unfinished { blocks: 4 },
        12 => Printed::Freed { blocks: 4 },
        13 => Printed::Drained {
            turns: 8,
            blocks: 4,
        },
        14 => Printed::Replayed { entries: 9 },
        15 => Printed::NoQueue { queues: 6 },
        16 => Printed::NoRecord,
        17 => Printed::NoNumber,
        18 => Printed::Short { need: 10, free: 0 },
        19 => Printed::Faulty,
        20 => Printed::NoMemory,
        21 => Printed::Pending { on: 11 },
        22 => Printed::PendingRead {
            ino: 2,
            place: 3,
            on: 11,
        },
        23 => Printed::Nothing,
        24 => Printed::Stopped,
        25 => Printed::Unmounted,
        _ => Printed::Mounted,
    }
}

const ANSWERS: [&str; 26] = [
    "1 ok ns=3 fd=1 ino=2\n",
    "2 ok ns=3 ino=2\n",
    "3 ok ns=3\n",
    "4 ok ino=2 place=3 off=5 n=7\n",
    "5 ok n=0\n",
    "6 ok ino=2 place=3\n",
    "7 ok off=5\n",
    "8 ok left=4\n",
    "9 ok\n",
    "10 ok more\n",
    "11 unfinished left=4\n",
    "12 ok freed=4\n",
    "13 ok turns=8 freed=4\n",
    "14 ok replayed=9\n",
    "15 EMFILE queues=6\n",
    "16 ENFILE records=256\n",
    "17 ENFILE next=4294967296\n",
    "18 ENOSPC need=10 free=0\n",
    "19 EIO\n",
    "20 ENOMEM\n",
    "21 pending on=11\n",
    "22 pending ino=2 place=3 on=11\n",
    "23 none\n",
    "24 stopped\n",
    "25 unmounted\n",
    "26 mounted\n",
];

fn text_of(alloc: Global, number: u64, answer: Printed) -> Result<Bytes, NoMemory> {
    print_line(alloc, &OutLine { number, answer })
}

#[test]
fn each_answer_has_its_text(rt: HostRuntime) -> Result<(), Fail> {
    let mut number = 0_u64;
    for text in ANSWERS {
        number = number.saturating_add(1);
        let line = text_of(rt.alloc(), number, answer_of(number))?;
        assert_eq!(rt; line.as_slice(), text.as_bytes(), "{text}");
    }
    Ok(())
}

/// The errors, by the places of their lines below.
fn error_of(place: u64) -> Posix {
    match place {
        1 => Posix::PermissionDenied,
        2 => Posix::NotFound,
        3 => Posix::AlreadyExists,
        4 => Posix::NotADirectory,
        5 => Posix::IsADirectory,
        6 => Posix::DirectoryNotEmpty,
        7 => Posix::InvalidArgument,
        8 => Posix::NameTooLong,
        9 => Posix::TooManyOpenFiles,
        10 => Posix::TooManyFiles,
        11 => Posix::BadDescriptor,
        _ => Posix::FileTooLarge,
    }
}

const ERRORS: [(&str, &str); 12] = [
    ("7 EACCES\n", "7 EACCES at=1\n"),
    ("7 ENOENT\n", "7 ENOENT at=2\n"),
    ("7 EEXIST\n", "7 EEXIST at=3\n"),
    ("7 ENOTDIR\n", "7 ENOTDIR at=4\n"),
    ("7 EISDIR\n", "7 EISDIR at=5\n"),
    ("7 ENOTEMPTY\n", "7 ENOTEMPTY at=6\n"),
    ("7 EINVAL\n", "7 EINVAL at=7\n"),
    ("7 ENAMETOOLONG\n", "7 ENAMETOOLONG at=8\n"),
    ("7 EMFILE\n", "7 EMFILE at=9\n"),
    ("7 ENFILE\n", "7 ENFILE at=10\n"),
    ("7 EBADF\n", "7 EBADF at=11\n"),
    ("7 EFBIG\n", "7 EFBIG at=12\n"),
];

#[test]
fn errors_have_their_names(rt: HostRuntime) -> Result<(), Fail> {
    let mut place = 0_u64;
    for (alone, at) in ERRORS {
        place = place.saturating_add(1);
        let error = error_of(place);
        let line = text_of(rt.alloc(), 7, Printed::Refused { error })?;
        assert_eq!(rt; line.as_slice(), alone.as_bytes());
        let line = text_of(rt.alloc(), 7, Printed::RefusedAt { error, place })?;
        assert_eq!(rt; line.as_slice(), at.as_bytes());
    }
    Ok(())
}

#[test]
fn bytes_are_lower_case_digits(rt: HostRuntime) -> Result<(), Fail> {
    let answer = Printed::Got {
        ino: 2,
        place: 3,
        bytes: Bytes::from_slice(rt.alloc(), b"\x00\xab\xff")?,
    };
    let line = text_of(rt.alloc(), 65536, answer)?;
    assert_eq!(rt;
        line.as_slice(),
        "65536 ok ino=2 place=3 n=3 h:00abff\n".as_bytes()
    );
    Ok(())
}

fn listed(place: u64, letter: Letter) -> Listed {
    Listed { place, letter }
}

#[test]
fn entries_have_their_letters(rt: HostRuntime) -> Result<(), Fail> {
    let entries = vec![in rt.alloc();
        listed(1, Letter::Waiting),
        listed(2, Letter::Out),
        listed(10, Letter::Idle),
        listed(11, Letter::Doubtful),
    ]?;
    let answer = Printed::Queued {
        entries: Entries::new(entries),
    };
    let line = text_of(rt.alloc(), 8, answer)?;
    assert_eq!(rt; line.as_slice(), "8 ok 1w 2o 10n 11d\n".as_bytes());
    Ok(())
}

#[test]
fn places_have_commas_between(rt: HostRuntime) -> Result<(), Fail> {
    let mut places: ArrayVec<u64, QUEUE_SLOTS> = ArrayVec::new();
    for place in [3, 0, 12] {
        if !places.is_full() {
            places.push(place);
        }
    }
    let answer = Printed::Full {
        places: Places::new(places),
    };
    let line = text_of(rt.alloc(), 7, answer)?;
    assert_eq!(rt; line.as_slice(), "7 EAGAIN places=3,0,12\n".as_bytes());
    Ok(())
}
