//! How a part of a line ends the line.

use cfs_print::Printed;

/// How a part of a line ends the line before its end.
#[derive(Debug, Drop)]
pub enum Halt {
    /// A device failed.
    Fault,
    /// The place of this number is in the way.
    Waits(u64),
    /// The line has its answer.
    Says(Printed),
}
