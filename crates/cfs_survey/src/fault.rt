//! What is wrong first.
ghost use Rattle.std.specs.Prelude.{◌≡◌, true, [], ◌∷◌, OnOk};
ghost use Rattle.cfs_image.specs.Checks.{check, damage_of};
ghost use Rattle.cfs_survey.specs.Faults.{reported};

use thiserror::Error;

/// What is named where a check fails.
#[derive(Clone, Copy, Debug, PartialEq, Eq, Error)]
#[error("offset {offset} found {found} against {against}")]
pub struct Fault {
    /// In bytes, from the start of the image.
    pub offset: u64,
    /// The number there.
    pub found: u64,
    /// What it should have been, or the bound that it passed.
    pub against: u64,
}

/// Refuses by naming this fault, unless the check holds.
pub(crate) fn ensure(holds: bool, offset: u64, found: u64, against: u64) -> Result<(), Fault>
    ensures passed { OnOk result (holds ≡ true) }
    ensures named { reported result ≡ damage_of (check holds offset found against ∷ []) }
{
    if holds {
        Ok(())
    } else {
        Err(Fault {
            offset,
            found,
            against,
        })
    }
}
