ghost use Rattle.std.specs.Prelude.{◌≡◌, ◌%◌};
ghost use Rattle.cfs_cred.specs.Rights.{grants};

/// A right that a call asks for.
#[derive(Clone, Copy, Debug, PartialEq, Eq, Hash)]
pub enum Want {
    /// To read a file or list a directory.
    Read,
    /// To write a file, or to make or remove a name in a directory.
    Write,
    /// To look a name up in a directory.
    Search,
}

impl Want {
    /// Whether the lowest octal digit of `digits` grants this right.
    pub(crate) fn is_granted_by(self, digits: u16) -> bool
        ensures { result ≡ grants (digits % 8) self }
    {
        let place = match self {
            Want::Read => 2,
            Want::Write => 1,
            Want::Search => 0,
        };
        (digits >> place) & 1 == 1
    }
}
