//! Why a folder makes no new file.

ghost use Rattle.std.specs.Prelude.{◌≡◌};
ghost use Rattle.cfs_io.specs.declared.create_refusal.CreateRefusal.TheVariants as refusals;

use crate::IoFault;

/// Why a new file is not made.
#[derive(Clone, Copy, Debug, PartialEq, Eq)]
pub enum CreateRefusal {
    /// There is a file of that name.
    Taken,
    /// The folder failed, and its count of faults rose.
    Failed,
}

impl From<IoFault> for CreateRefusal {
    ghost from_gives = { λ _ refusal. refusal ≡ refusals.Failed };

    fn from(_: IoFault) -> CreateRefusal {
        CreateRefusal::Failed
    }
}
