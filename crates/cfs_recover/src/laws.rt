//! What the calls come to, as contracts of functions that do nothing.
ghost use Rattle.cfs_recover.specs.Brought.{BytesAreBrought};
ghost use Rattle.cfs_recover.specs.Cut.{TruncatesAreCut, WritesAreCut};
ghost use Rattle.cfs_recover.specs.Held.{PiecesHold};
ghost use Rattle.cfs_recover.specs.Settled.{RestIsLeft};
ghost use Rattle.cfs_recover.specs.Sure.{PiecesAreSure, SureBlocksAreOf};

/// Once the pieces of a request are written and flushed, its bytes stand in the blocks of the file.
pub fn pieces_hold()
    ensures { PiecesHold }
{}

/// Then a crash leaves each block as it reads, where it did so before.
pub fn pieces_are_sure()
    ensures { PiecesAreSure }
{}

/// So it leaves the blocks of one disk alone.
pub fn sure_blocks_are_of()
    ensures { SureBlocksAreOf }
{}

/// Once the pieces of the lowest entry are written and flushed, its bytes are brought home, and all
/// else is as it was.
pub fn bytes_are_brought()
    ensures { BytesAreBrought }
{}

/// Once an entry is home, the rest of its file's live entries is left, and all those of others.
pub fn rest_is_left()
    ensures { RestIsLeft }
{}

/// The part of a write for one block brings its bytes there, and has all that the write touches.
pub fn writes_are_cut()
    ensures { WritesAreCut }
{}

/// So it is of a truncate.
pub fn truncates_are_cut()
    ensures { TruncatesAreCut }
{}
