//! The kinds of a workload's requests.

ghost use Rattle.std.specs.Prelude.{◌≡◌};
ghost use Rattle.cfs_gen.specs.Kinds.{kind_at, kind_of};

use cfs_script::Form;

/// The kinds of a workload's requests.
#[derive(Clone, Copy, Debug, PartialEq, Eq)]
pub(crate) enum Kind {
    /// A `pwrite`.
    Write,
    /// A `pread`.
    Read,
    /// An `fsync`.
    Sync,
}

impl Kind {
    /// The kind of a request, by its number from 0 on: after three rounds of the callers with
    /// writes comes one with reads and one with syncs.
    pub(crate) fn at(index: u64) -> Kind
        ensures { result ≡ kind_at index }
    {
        match index / 8 % 5 {
            0..=2 => Kind::Write,
            3 => Kind::Read,
            _ => Kind::Sync,
        }
    }

    /// The kind of a form, if it is a request of a workload.
    pub(crate) fn of(form: &Form) -> Option<Kind>
        ensures { result ≡ kind_of form.now }
    {
        match form {
            Form::Pwrite { .. } => Some(Kind::Write),
            Form::Pread { .. } => Some(Kind::Read),
            Form::Fsync { .. } => Some(Kind::Sync),
            _ => None,
        }
    }
}
