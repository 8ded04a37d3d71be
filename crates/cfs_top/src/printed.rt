//! What a line answers.

ghost use Rattle.std.specs.Prelude.{◌≡◌};
ghost use Rattle.cfs_top.specs.Answers.{printed};

use cfs_file::{Answer, Bytes};

/// An answer as it is printed.
#[derive(Debug, Drop, Clone, PartialEq, Eq)]
pub(crate) enum Printed {
    /// A file was opened: the place in the order of names, the descriptor, the inode number.
    Opened {
        place: u64,
        fd: u64,
        ino: u64,
    },
    /// A write: the inode number, its place, where it stands and how many bytes it has.
    Wrote {
        ino: u64,
        place: u64,
        offset: u64,
        count: u64,
    },
    /// A read: the inode number, its place and the bytes.
    Got {
        ino: u64,
        place: u64,
        bytes: Bytes,
    },
    /// A truncate or a sync: the inode number and its place.
    Done {
        ino: u64,
        place: u64,
    },
}

impl Printed {
    /// The answer of a request to file `ino` at `place`.
    pub(crate) fn of_request(ino: u64, place: u64, answer: Answer) -> Printed
        ensures { result ≡ printed ino place answer }
    {
        match answer {
            Answer::Wrote { offset, count } => Printed::Wrote {
                ino,
                place,
                offset,
                count,
            },
            Answer::Got(bytes) => Printed::Got { ino, place, bytes },
            Answer::Done => Printed::Done { ino, place },
        }
    }
}
