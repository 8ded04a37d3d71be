//! Clean stores: what each store is that the program makes or saves, as contracts of functions
//! that do nothing.
#![tactic(auto)]

ghost use Rattle.cfs_clean.specs.Laws.{CleanStoresStand, NewStoresAreClean};

/// A store with the words and the bytes of a new one is clean.
pub fn new_stores_are_clean()
    ensures { NewStoresAreClean }
{}

/// A mount finds its files in a clean store of which a crash leaves one disk alone, as one has that
/// was just read or saved, and may bring them home.
pub fn clean_stores_stand()
    ensures { CleanStoresStand }
{}
