//! Where files stand by name.

ghost use Rattle.std.specs.Prelude.{◌≡◌, ℕ, ◌≤◌, IfOk, OnOk, OnErr, IsErrOf};
ghost use Rattle.std.specs.declared.option.Option.{Option};
ghost use Rattle.cfs_pmem.specs.Faults.{HasCause, Rose};
ghost use Rattle.cfs_io.specs.Files.{Files, Finds, Misses, Saved, OthersKept};

use crate::{IoFault, LoadRefusal};
use cfs_file::{Bytes, Word};

/// A shelf of files, each with a name.
pub trait Shelf {
    /// The files by their names, where the shelf tells them.
    ghost files: { Self → Option Files };

    /// How many loads have met a fault. The count stays at the end of `u64`.
    ghost load_faults: { Self → ℕ };

    /// How many saves have met a fault. The count stays at the end of `u64`.
    ghost save_faults: { Self → ℕ };

    /// The bytes of the file `name`, or that there is none. It changes no file (own).
    fn load(&mut self, name: &Word) -> Result<Bytes, LoadRefusal>
        ensures found { IfOk result (λ bytes. Finds (files self.old) name.now bytes) }
        ensures absent { IsErrOf result LoadRefusal.Absent → Misses (files self.old) name.now }
        ensures same { files self.new ≡ files self.old }

        // It failed only where the shelf did.
        ensures failed { IsErrOf result LoadRefusal.Failed →
            Rose (load_faults self.old) (load_faults self.new) }
        ensures later { load_faults self.old ≤ load_faults self.new }
        ensures kept { OnOk result (load_faults self.new ≡ load_faults self.old) }
        ensures kept_absent { IsErrOf result LoadRefusal.Absent →
            load_faults self.new ≡ load_faults self.old }
        ensures kept_want { IsErrOf result LoadRefusal.NoMemory →
            load_faults self.new ≡ load_faults self.old }
        ensures saves { save_faults self.new ≡ save_faults self.old };

    /// Makes `bytes` the file `name`, in place of one that is there. A failed save changes no file
    /// of another name (own).
    fn save(&mut self, name: &Word, bytes: &[u8]) -> Result<(), IoFault>
        ensures saved { OnOk result (Saved (files self.old) (files self.new) name.now bytes.now) }
        ensures others { OnErr result (OthersKept (files self.old) (files self.new) name.now) }
        ensures cause { HasCause (save_faults self.old) (save_faults self.new) result }
        ensures loads { load_faults self.new ≡ load_faults self.old };
}
