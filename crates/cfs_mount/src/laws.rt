//! What a mount leaves, as contracts of functions that do nothing.
ghost use Rattle.cfs_mount.specs.Restored.{BroughtHomesAreSettled};
ghost use Rattle.cfs_mount.specs.Settled.{HomesAreSettled};

/// Where a crash leaves a single disk of a store, with no gate open, the store's regions hold the
/// tree that the disk tells, in every image, and all its slots are free.
pub fn homes_are_settled()
    ensures { HomesAreSettled }
{}

/// So it is with a store that was read and then brought home: its regions hold the tree of the
/// words that were read.
pub fn brought_homes_are_settled()
    ensures { BroughtHomesAreSettled }
{}
