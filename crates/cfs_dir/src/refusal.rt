use crate::posix::Posix;
use thiserror::Error;

/// Why a call on the tree did nothing.
#[derive(Clone, Copy, Debug, PartialEq, Eq, Error)]
pub enum TreeRefusal {
    /// The rules refuse it.
    #[error("{0}")]
    Refused(Posix),
    /// There was no memory for it.
    #[error("out of memory")]
    NoMemory,
}

impl From<Posix> for TreeRefusal {
    ghost use Rattle.std.specs.Prelude.{◌≡◌};
    ghost use Rattle.cfs_dir.specs.declared.refusal.TreeRefusal.TheVariants.{Refused};

    ghost from_gives = { λ posix refusal. refusal ≡ Refused posix };

    fn from(posix: Posix) -> TreeRefusal {
        TreeRefusal::Refused(posix)
    }
}
