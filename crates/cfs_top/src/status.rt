//! How a call of the program ends.

ghost use Rattle.std.specs.Prelude.{◌≡◌};
ghost use Rattle.cfs_top.specs.Statuses.{number_of};

/// How the program ends.
#[derive(Clone, Copy, Debug, PartialEq, Eq)]
pub enum Status {
    /// All was done.
    Done,
    /// The words are no command.
    Usage,
    /// The input is no script.
    Script,
    /// The image is none that the command takes.
    Image,
    /// The source had a fault.
    Input,
    /// The sink had a fault.
    Output,
    /// The shelf had a fault.
    Shelf,
    /// Want of memory.
    NoMemory,
    /// The shelf has no image of that name.
    Absent,
    /// The image has no file at that path.
    NoFile,
}

impl Status {
    /// The number that the process ends with (own).
    pub fn number(self) -> u8
        ensures { result ≡ number_of self }
    {
        match self {
            Status::Done => 0,
            Status::Usage => 1,
            Status::Script => 2,
            Status::Image => 3,
            Status::Input => 4,
            Status::Output => 5,
            Status::Shelf => 6,
            Status::NoMemory => 7,
            Status::Absent => 8,
            Status::NoFile => 9,
        }
    }
}
