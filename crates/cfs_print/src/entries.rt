//! The entries of a queue.

ghost use Rattle.std.specs.Prelude.{◌≡◌};

use crate::Listed;
use std::marker::Model;

/// The entries of a queue, in order of place. Contracts see the list.
#[derive(Debug, Drop)]
pub struct Entries {
    entries: Vec<Listed>,
}

impl Model for Entries {
    ghost use Rattle.std.specs.Prelude.{List};
    ghost use Rattle.cfs_print.specs.declared.listed.Listed.{Listed};

    ghost Value = { List Listed };

    ghost view = { λ e. e.entries.items };
}

impl Entries {
    /// These entries. Takes no memory.
    pub fn new(entries: Vec<Listed>) -> Entries
        ensures { result ≡ entries.items }
    {
        Entries { entries }
    }

    /// The entries, in order.
    pub fn as_slice(&self) -> &[Listed]
        ensures { result.now ≡ self.now }
    {
        self.entries.as_slice()
    }
}
