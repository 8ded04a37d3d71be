//! An example run, as the contract of a function that does nothing.

ghost use Rattle.cfs_meaning.specs.Example.{TheLinesAnswer, TheWritesAnswer};

/// A script of four lines, which makes a file, writes two bytes and reads them back, has a run with
/// the answers that the rules give.
pub fn the_lines_answer()
    ensures { TheLinesAnswer }
{}

/// So has one in which two descriptors write to one file, the second write covers the first, and
/// both queues are listed.
pub fn the_writes_answer()
    ensures { TheWritesAnswer }
{}
