//! What a caller asks of a file.

use crate::Bytes;

/// A request to one file. Offsets, lengths and counts are bytes.
///
/// A write or append that the file system admits has 1 to 65,536 bytes and a read asks for at most
/// 4096; the definitions hold of every request.
#[derive(Debug, Drop, Clone, PartialEq, Eq)]
pub enum Request {
    /// Writes `bytes` at `offset` (POSIX.1-2017, pwrite()).
    Write { offset: u64, bytes: Bytes },
    /// Writes `bytes` at the end of the file (POSIX.1-2017, write() with O_APPEND).
    Append { bytes: Bytes },
    /// Makes the file `length` bytes long (POSIX.1-2017, ftruncate()).
    Truncate { length: u64 },
    /// Reads at most `count` bytes from `offset` on (POSIX.1-2017, pread()).
    Read { offset: u64, count: u64 },
    /// Waits until all that came before is durable (POSIX.1-2017, fsync()).
    Sync,
}
