//! What holds of all stores of a checkpoint, as contracts of functions that do nothing.

ghost use Rattle.cfs_ckpt.specs.History.{CrashesInAStore, CrashesLoadStores};
ghost use Rattle.cfs_ckpt.specs.Stores.{StoresTakeSteps};

/// Behind stores one after another, whatever a crash leaves loads the tree and number of the last
/// one that answered Ok, or of one since. Until one has, those that the checkpoint was made with
/// stand in place of the last one's.
pub fn crashes_load_stores()
    ensures { CrashesLoadStores }
{}

/// At each moment of one more store, a crash loads one of these, or what this one stores.
pub fn crashes_in_a_store()
    ensures { CrashesInAStore }
{}

/// A store makes 3,076 steps, and one more where the selector is in doubt.
pub fn stores_take_steps()
    ensures { StoresTakeSteps }
{}
