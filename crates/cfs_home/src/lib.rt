//! Why a mount may stop anywhere, as contracts of functions that do nothing.
//!
//! `specs/Parts.antt` has one file of an image, position by position, and the steps by which a
//! mount brings a live entry home; `specs/Disks.antt` has all files of an image, and each step of a
//! mount on its devices; `specs/Ends.antt` has where it ends. `specs/Laws.antt` states what the
//! steps keep.
//! `specs/Calls.antt` has the disk that a crash leaves of a store's devices, and calls on these.
#![tactic(auto)]

ghost use Rattle.cfs_home.specs.Laws.{ClosesKeepAll, ClosesMayStop, DeadSlotsMayClose};
ghost use Rattle.cfs_home.specs.Laws.{EndsAreClosed, EndsAreStored, GatesAreClosed, HeldAreHome};
ghost use Rattle.cfs_home.specs.Laws.{LoadedAreFresh, LoadedAreThere, LoadedHaveBlocks};
ghost use Rattle.cfs_home.specs.Laws.{OtherBlocksMayChange, OtherSizesMayBeSet, PartsAreKept};
ghost use Rattle.cfs_home.specs.Laws.{PiecesAreBeside, ShutSlotsAreSwept, ShutSlotsLeaveOthers};
ghost use Rattle.cfs_home.specs.Laws.{SizesAreSet, SizesKeepAll, SizesMayStop, StaysGoOn};
ghost use Rattle.cfs_home.specs.Laws.{TagsMayStop, WritesKeepAll, WritesMayStop};

/// Bytes of the lowest live entry may change, the size word may be set for it, and it may be closed
/// once it is home: each step keeps the file that a mount finds.
pub fn parts_are_kept()
    ensures { PartsAreKept }
{}

/// A slot whose gate is closed is no live entry any more, and all others are what they were, also
/// those that have it as a tail.
pub fn shut_slots_leave_others()
    ensures { ShutSlotsLeaveOthers }
{}

/// For the lowest live entry of a file its blocks may be written and flushed, in any order, torn or
/// not: a mount finds the same files.
pub fn writes_keep_all()
    ensures { WritesKeepAll }
{}

/// And its size word may be set.
pub fn sizes_keep_all()
    ensures { SizesKeepAll }
{}

/// Once it is home its gate may be closed.
pub fn closes_keep_all()
    ensures { ClosesKeepAll }
{}

/// It is home once its bytes stand in the blocks of the file, and its size word is set.
pub fn held_are_home()
    ensures { HeldAreHome }
{}

/// A slot that is no live entry of a file may be closed.
pub fn dead_slots_may_close()
    ensures { DeadSlotsMayClose }
{}

/// The size word of a record that is no file's may be set.
pub fn other_sizes_may_be_set()
    ensures { OtherSizesMayBeSet }
{}

/// A block that is tagged for no file may come to hold anything that is tagged for none.
pub fn other_blocks_may_change()
    ensures { OtherBlocksMayChange }
{}

/// Steps may follow each other: where each finds the files of the one before, the last finds those
/// of the first.
pub fn stays_go_on()
    ensures { StaysGoOn }
{}

/// Once no live entry of a file is left, it is stored as a mount would have found it at the start.
pub fn ends_are_stored()
    ensures { EndsAreStored }
{}

/// A slot that was closed is swept, as is one that is a live entry, and stays so whatever slot is
/// closed.
pub fn shut_slots_are_swept()
    ensures { ShutSlotsAreSwept }
{}

/// Once all slots are swept and no live entry of any file is left, no gate is open.
pub fn ends_are_closed()
    ensures { EndsAreClosed }
{}

/// Then a file is loaded as a fresh core, whose base is what a mount would have found at the start.
pub fn loaded_are_fresh()
    ensures { LoadedAreFresh }
{}

/// Each stored file has a core as which it is loaded.
pub fn loaded_are_there()
    ensures { LoadedAreThere }
{}

/// Such a core has the bytes of each block that is tagged for the file.
pub fn loaded_have_blocks()
    ensures { LoadedHaveBlocks }
{}

/// A write into a range of a block that a request touches, torn or not, leaves the blocks of the
/// request as they may be.
pub fn pieces_are_beside()
    ensures { PiecesAreBeside }
{}

/// A mount may stop at any moment of the writes and flushes of a request's blocks.
pub fn writes_may_stop()
    ensures { WritesMayStop }
{}

/// And of the setting of a size word.
pub fn sizes_may_stop()
    ensures { SizesMayStop }
{}

/// And of the closing of a gate.
pub fn closes_may_stop()
    ensures { ClosesMayStop }
{}

/// And of the setting of a tag.
pub fn tags_may_stop()
    ensures { TagsMayStop }
{}

/// Once a size word is set and persisted, a crash leaves the disk with that size alone.
pub fn sizes_are_set()
    ensures { SizesAreSet }
{}

/// Once a gate is closed and persisted, a crash leaves the disk with that slot shut alone.
pub fn gates_are_closed()
    ensures { GatesAreClosed }
{}
