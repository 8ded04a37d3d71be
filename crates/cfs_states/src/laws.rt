//! What stored files and their states stand for, as contracts of functions that do nothing.
ghost use Rattle.cfs_states.specs.Behind.{BroughtHomeAreStored};
ghost use Rattle.cfs_states.specs.Laws.{StoredStatesStand};

/// Where a mount has brought all home, each file is stored with the bytes that were to be found
/// when it began.
pub fn brought_home_are_stored()
    ensures { BroughtHomeAreStored }
{}

/// Each stored file has a core of which nothing is logged, whose base is the stored file, and its
/// state stands for this core on its devices.
pub fn stored_states_stand()
    ensures { StoredStatesStand }
{}
