//! Why a file is not replaced.

ghost use Rattle.std.specs.Prelude.{◌≡◌};
ghost use Rattle.cfs_io.specs.declared.save_refusal.SaveRefusal.TheVariants as refusals;

use cfs_file::NoMemory;

/// Why a file is not replaced, and what stands then.
#[derive(Clone, Copy, Debug, PartialEq, Eq)]
pub(crate) enum SaveRefusal {
    /// Each name for a new file is taken. Nothing was done.
    NamesTaken,
    /// Want of memory, before anything was done.
    NoMemory,
    /// The folder failed before the new file was in place. All files are as they were.
    Unchanged,
    /// The same, but the new file could not be removed: it stands beside, under a name that is kept
    /// for such files. All other files are as they were.
    LeftBeside,
    /// The new file is in place, but the folder failed to make that durable.
    NotDurable,
}

impl From<NoMemory> for SaveRefusal {
    ghost from_gives = { λ _ refusal. refusal ≡ refusals.NoMemory };

    fn from(_: NoMemory) -> SaveRefusal {
        SaveRefusal::NoMemory
    }
}
