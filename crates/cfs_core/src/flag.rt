//! A bit of the medium, as far as it is known.

ghost use Rattle.std.specs.Prelude.{◌≡◌};
ghost use Rattle.cfs_core.specs.Words.{can_be, flag_of, is_off, is_on};

/// What is known of a word that is 0 or 1: which values a crash may leave.
#[derive(Clone, Copy, Debug, PartialEq, Eq)]
pub enum Flag {
    /// 0 in every image.
    Off,
    /// 1 in every image.
    On,
    /// 0 or 1.
    Unsure,
}

impl Flag {
    /// The flag of a word that has that value in every image.
    pub fn sure(bit: bool) -> Flag
        ensures { result ≡ flag_of bit }
    {
        if bit { Flag::On } else { Flag::Off }
    }

    pub fn is_on(self) -> bool
        ensures { result ≡ is_on self }
    {
        matches!(self, Flag::On)
    }

    pub fn is_off(self) -> bool
        ensures { result ≡ is_off self }
    {
        matches!(self, Flag::Off)
    }

    /// An image may have that value.
    pub fn can_be(self, bit: bool) -> bool
        ensures { result ≡ can_be self bit }
    {
        match self {
            Flag::Off => !bit,
            Flag::On => bit,
            Flag::Unsure => true,
        }
    }
}
