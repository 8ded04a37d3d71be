//! A folder of files, step by step.

ghost use Rattle.std.specs.Prelude.{◌≡◌, ◌⊎◌, ◌≢◌, ℕ, ◌≤◌, List, IfOk, OnOk, OnErr, IsErrOf};
ghost use Rattle.std.specs.declared.option.Option.{Option};
ghost use Rattle.cfs_pmem.specs.Faults.{HasCause, Rose};
ghost use Rattle.cfs_io.specs.Files.{Files, Misses};
ghost use Rattle.cfs_io.specs.Folder.{Filled, HasSize, IsOf, LeavesNoMore, LeavesNoMoreAt, Made, Moved, OthersLeaveNoMore, OthersStay, ReadsFront, Removed};
ghost use Rattle.cfs_io.specs.Saves.{Stands};

use crate::{CreateRefusal, IoFault, LoadRefusal};
use cfs_file::{Bytes, Word};

/// A folder of files by their names, as a system gives them: what reads give now, and what a cut of
/// the power may leave.
///
/// A file's bytes are sure once the file is synced, and which file stands under a name once the
/// names are. Until then a cut may leave anything of the file, and under the name the file that
/// stands there now or the one that stood there.
pub trait Folder {
    /// An open file.
    type File: Drop;

    /// The files by their names, as reads give them, where the folder tells them.
    ghost files: { Self → Option Files };

    /// What a cut now may leave under a name: a file of these bytes, or none.
    ghost MayLeave: { Self → List ℕ → Option (List ℕ) → Type 0 };

    /// The bytes of the file under this name are sure.
    ghost IsSynced: { Self → List ℕ → Type 0 };

    /// The open file is the one of this name.
    ghost Opens: { Self.File → List ℕ → Type 0 };

    /// How many steps have failed. The count stays at the end of `u64`.
    ghost faults: { Self → ℕ };

    /// How many bytes a file has. Changes no file.
    fn size(&mut self, name: &Word) -> Result<u64, LoadRefusal>
        ensures size { IfOk result (λ size. HasSize (files self.old) name.now size) }
        ensures absent { IsErrOf result LoadRefusal.Absent → Misses (files self.old) name.now }
        ensures same { files self.new ≡ files self.old }
        ensures failed { IsErrOf result LoadRefusal.Failed →
            Rose (faults self.old) (faults self.new) }
        ensures later { faults self.old ≤ faults self.new };

    /// The first bytes of a file, at most `most` of them. Changes no file.
    fn read(&mut self, name: &Word, most: u64) -> Result<Bytes, LoadRefusal>
        ensures front { IfOk result (λ front. ReadsFront (files self.old) name.now most front) }
        ensures absent { IsErrOf result LoadRefusal.Absent → Misses (files self.old) name.now }
        ensures same { files self.new ≡ files self.old }
        ensures failed { IsErrOf result LoadRefusal.Failed →
            Rose (faults self.old) (faults self.new) }
        ensures later { faults self.old ≤ faults self.new };

    /// Makes a new file without bytes under a name that no file has, and opens it.
    fn create(&mut self, name: &Word) -> Result<Self::File, CreateRefusal>
        ensures made { OnOk result (Made (files self.old) (files self.new) name.now) }
        ensures opens { IfOk result (λ file. Opens file name.now) }
        ensures taken { IsErrOf result CreateRefusal.Taken → Stands (files self.old) name.now }
        ensures same { OnErr result (files self.new ≡ files self.old) }
        ensures left { OthersLeaveNoMore (MayLeave self.old) (MayLeave self.new) name.now }
        ensures failed { IsErrOf result CreateRefusal.Failed →
            Rose (faults self.old) (faults self.new) }
        ensures later { faults self.old ≤ faults self.new };

    /// Gives an open file the permissions of the file `name`, if there is one.
    fn keep_mode(&mut self, file: &Self::File, name: &Word) -> Result<(), IoFault>
        ensures same { files self.new ≡ files self.old }
        ensures left { LeavesNoMore (MayLeave self.old) (MayLeave self.new) }
        ensures cause { HasCause (faults self.old) (faults self.new) result };

    /// Writes `bytes` into an open file that has none. A failure may have written anything.
    fn fill(&mut self, file: &mut Self::File, bytes: &[u8]) -> Result<(), IoFault>
        ensures filled { (name : List ℕ) → Opens file.old name →
            OnOk result (Filled (files self.old) (files self.new) name bytes.now) }
        ensures others { (name : List ℕ) → Opens file.old name →
            OthersStay (files self.old) (files self.new) name }
        ensures opens { (name : List ℕ) → Opens file.old name → Opens file.new name }
        ensures left { (name : List ℕ) → Opens file.old name →
            OthersLeaveNoMore (MayLeave self.old) (MayLeave self.new) name }
        ensures cause { HasCause (faults self.old) (faults self.new) result };

    /// Makes the bytes of an open file sure.
    fn sync(&mut self, file: &Self::File) -> Result<(), IoFault>
        ensures synced { (name : List ℕ) → Opens file.now name →
            OnOk result (IsSynced self.new name) }
        ensures same { files self.new ≡ files self.old }
        ensures left { (name : List ℕ) → Opens file.now name →
            OthersLeaveNoMore (MayLeave self.old) (MayLeave self.new) name }
        ensures cause { HasCause (faults self.old) (faults self.new) result };

    /// Moves the file `from` to the name `to`, in place of one that is there. A failure changes
    /// nothing that is read, but a cut may leave the file moved.
    fn rename(&mut self, from: &Word, to: &Word) -> Result<(), IoFault>
        ensures moved { OnOk result (Moved (files self.old) (files self.new) from.now to.now) }
        ensures synced { OnOk result (IsSynced self.old from.now → IsSynced self.new to.now) }
        ensures same { OnErr result (files self.new ≡ files self.old) }
        ensures either { IsSynced self.old from.now → (left : Option (List ℕ)) →
            MayLeave self.new to.now left →
            MayLeave self.old to.now left ⊎ IsOf (files self.old) from.now left }
        ensures left { (q : List ℕ) → q ≢ from.now → q ≢ to.now →
            LeavesNoMoreAt (MayLeave self.old) (MayLeave self.new) q }
        ensures cause { HasCause (faults self.old) (faults self.new) result };

    /// Removes a file.
    fn remove(&mut self, name: &Word) -> Result<(), IoFault>
        ensures removed { OnOk result (Removed (files self.old) (files self.new) name.now) }
        ensures same { OnErr result (files self.new ≡ files self.old) }
        ensures left { OthersLeaveNoMore (MayLeave self.old) (MayLeave self.new) name.now }
        ensures cause { HasCause (faults self.old) (faults self.new) result };

    /// Makes sure which file stands under `name`.
    fn sync_names(&mut self, name: &Word) -> Result<(), IoFault>
        ensures sure { OnOk result (IsSynced self.old name.now → (left : Option (List ℕ)) →
            MayLeave self.new name.now left → IsOf (files self.old) name.now left) }
        ensures same { files self.new ≡ files self.old }
        ensures left { LeavesNoMore (MayLeave self.old) (MayLeave self.new) }
        ensures cause { HasCause (faults self.old) (faults self.new) result };
}
