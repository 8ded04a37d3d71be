//! What holds of all nodes, changes and trees, as contracts of functions that do nothing.

ghost use Rattle.cfs_dir.specs.Told.{ChangesAreTold, NodesAreTold, TablesAreTold};

/// The words of a node tell it.
pub fn nodes_are_told()
    ensures { NodesAreTold }
{}

/// The words of a change tell it.
pub fn changes_are_told()
    ensures { ChangesAreTold }
{}

/// The words of a table tell its tree.
pub fn tables_are_told()
    ensures { TablesAreTold }
{}
