//! The state of one record.

use crate::ending::Ending;
use crate::free::Free;
use crate::life::Life;

/// The state of one record of the table of nodes, from file to file.
#[derive(Drop)]
pub enum FileState {
    /// It has no file.
    Free(Free),
    /// It has a file.
    Life(Life),
    /// Its file is no longer in the tree, and is being emptied.
    Ending(Ending),
    /// It is in the hands of a call. No call leaves it so.
    Moving,
}
