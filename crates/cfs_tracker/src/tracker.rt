//! What is known of one inode at run time.

ghost use Rattle.std.specs.Prelude.{◌≡◌, length};
ghost use Rattle.cfs_file.specs.declared.sizes.TheConstants.{FILE_BLOCKS};

use crate::{Cell, InDoubt, Pending, Reading};

/// What is known of one inode at run time: the changes and reads that are pending, what stands for
/// each block of the file, the request in doubt, how many places were given, the length of the file
/// and the size word. `S` is what holds a live request, `D` what holds one in doubt, and `B` is a
/// block of the medium; none of them is looked at.
///
/// A look-up by place walks what is pending once. `next_work` and `next_trim` also walk it for what
/// comes before the answer, to the first that stands in its way, and `next_mark` walks the reads
/// for each change that is covered. Of the file's blocks a call walks those of one span,
/// `next_trim` those from the stored size on, `is_in_use` and `next_kept` those to the answer.
#[derive(Debug, Drop)]
pub struct Tracker<S, D, B> {
    /// How many places were given.
    pub(crate) count: u64,
    /// The length of the file after the log.
    pub(crate) long: u64,
    /// The size word as it reads.
    pub(crate) stored: u64,
    /// The size word has that value in every image.
    pub(crate) is_sure: bool,
    /// By ascending place.
    pub(crate) entries: Vec<Pending<S>>,
    /// By ascending place.
    pub(crate) reads: Vec<Reading>,
    /// Of each block of the file.
    pub(crate) cells: Vec<Cell<B>>,
    pub(crate) doubt: Option<InDoubt<D>>,
    ghost covers_file: { length cells.items ≡ FILE_BLOCKS },
}
