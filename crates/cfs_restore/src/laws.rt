//! What stands of any store while it is only read.
ghost use Rattle.cfs_restore.specs.Still.{StillStoresStand};

/// While calls only read its devices, a store on which a mount finds its files stays one: a crash
/// at any moment leaves what a mount finds the same files on, and so it is behind the calls.
pub fn still_stores_stand()
    ensures { StillStoresStand }
{}
