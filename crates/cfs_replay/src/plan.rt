//! What a mount is to do.
use crate::pending::Pending;

/// What a mount is to do to the devices of a store, list by list and each in its order.
#[derive(Debug, Drop)]
pub struct Plan {
    /// The slots that are open and no live entry of a file, by their places among all slots: their
    /// gates are closed first.
    pub dead: Vec<usize>,
    /// The live entries of all files, those of one file by ascending gate: they are brought home.
    pub entries: Vec<Pending>,
    /// The blocks that are tagged for no file, by their places among all blocks: they are untagged.
    pub untagged: Vec<usize>,
    /// The records of no file whose size words are not 0: these are set to 0.
    pub emptied: Vec<usize>,
}
