//! What the text of a line tells, as contracts of functions that do nothing.

ghost use Rattle.cfs_print.specs.Text.{LinesAreTold, OutputsAreTold};

/// The text of a line tells its number and its answer, once it is known whether it answers a
/// `queue` line: without an entry that answer reads `ok`, as others do.
pub fn lines_are_told()
    ensures { LinesAreTold }
{}

/// The text of an output tells its lines, once it is known which of them answer `queue` lines.
pub fn outputs_are_told()
    ensures { OutputsAreTold }
{}
