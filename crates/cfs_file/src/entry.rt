//! A line of a file's log.

use crate::Request;

/// A request that a file has admitted. Its answer is not kept, since the log before it gives it.
#[derive(Debug, Drop, Clone, PartialEq, Eq)]
pub struct Entry {
    /// The file's inode number.
    pub ino: u64,
    /// Its place in the file's log, from 1.
    pub place: u64,
    /// The caller's number.
    pub caller: u64,
    /// The number of the script's line that it comes from.
    pub line: u64,
    /// What was asked.
    pub request: Request,
}
