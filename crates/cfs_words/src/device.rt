//! Devices of a store, as a script names them.

/// A device of a store. A store may lack a slot or a block that a script names.
#[derive(Clone, Copy, Debug, PartialEq, Eq)]
pub enum Device {
    /// `selector`: the selector of the tables.
    Selector,
    /// `table C`: a copy of the table, 0 or 1.
    Table(u64),
    /// `journal J`: the journal's record at a position, 0 to 63.
    Journal(u64),
    /// `size R`: the size word of a record, 0 to 255.
    Size(u64),
    /// `slot Q S`: the slot of number S in queue Q.
    Slot(u64, u64),
    /// `block B`: a block.
    Block(u64),
}
