//! A shelf over a folder of files.

ghost use Rattle.std.specs.Prelude.{◌≡◌, ◌⊎◌, ◌≢◌, ◌≤◌, ℕ, List, length, false, IfOk, OnOk, OnErr, IsErrOf};
ghost use Rattle.std.specs.declared.option.Option.{Option};
ghost use Rattle.cfs_pmem.specs.Faults.{HasCause, Rose};
ghost use Rattle.cfs_io.specs.Files.{Finds, Misses, OthersKept, Saved};
ghost use Rattle.cfs_io.specs.Folder.{IsLonger, IsWhole, LeavesNoMoreAt, SameOrSaved, is_kept_name, on_shelf};

use crate::replace::replace_file;
use crate::{Folder, IoFault, LoadRefusal, Shelf};
use cfs_file::{Bytes, Word};
use std::alloc::Global;

/// The most bytes that a file may have to be loaded (own).
pub const LARGEST_FILE: u64 = 1_073_741_824;

/// A shelf over a folder of files: its files are the folder's, but for those whose names
/// have a `~`.
///
/// Such names are kept for saves. A save writes a new file beside the old one, makes it durable,
/// renames it into place and makes the names durable. So a save that fails before the rename, or
/// that the power cuts, leaves the old file, and one that fails behind it the new one. The new file
/// of a failed save is removed; where that fails too, or after a cut, it stays, and is no file of
/// the shelf. A save under a name with a `~` is a fault, and so is a load of a file of more
/// than [`LARGEST_FILE`] bytes.
#[derive(Debug, Drop)]
pub struct FileShelf<F> {
    folder: F,
    alloc: Global,
    load_faults: u64,
    save_faults: u64,
}

impl<F: Folder> FileShelf<F> {
    /// A shelf over `folder`, which has had no fault. Takes no memory.
    pub fn new(folder: F, alloc: Global) -> FileShelf<F>
        ensures files { ⟦<FileShelf<F> as Shelf>⟧.files result ≡ on_shelf (F.files folder) }
        ensures load_faults { ⟦<FileShelf<F> as Shelf>⟧.load_faults result ≡ 0 }
        ensures save_faults { ⟦<FileShelf<F> as Shelf>⟧.save_faults result ≡ 0 }
    {
        FileShelf {
            folder,
            alloc,
            load_faults: 0,
            save_faults: 0,
        }
    }

    /// Gives the folder back.
    pub fn into_folder(self) -> F
        ensures { on_shelf (F.files result) ≡ ⟦<FileShelf<F> as Shelf>⟧.files self }
    {
        let FileShelf {
            folder,
            alloc: _,
            load_faults: _,
            save_faults: _,
        } = self;
        folder
    }

    /// How many loads have met a fault.
    pub fn load_faults(&self) -> u64
        ensures { result ≡ ⟦<FileShelf<F> as Shelf>⟧.load_faults self.now }
    {
        self.load_faults
    }

    /// How many saves have met a fault.
    pub fn save_faults(&self) -> u64
        ensures { result ≡ ⟦<FileShelf<F> as Shelf>⟧.save_faults self.now }
    {
        self.save_faults
    }
}

impl<F: Folder> Shelf for FileShelf<F> {
    ghost files = { λ shelf. on_shelf (F.files shelf.folder) };

    ghost load_faults = { λ shelf. shelf.load_faults };

    ghost save_faults = { λ shelf. shelf.save_faults };

    fn load(&mut self, name: &Word) -> Result<Bytes, LoadRefusal>
        ensures found { IfOk result (λ bytes.
            Finds (on_shelf (F.files self.old.folder)) name.now bytes) }
        ensures absent { IsErrOf result LoadRefusal.Absent →
            Misses (on_shelf (F.files self.old.folder)) name.now }
        ensures same { on_shelf (F.files self.new.folder) ≡ on_shelf (F.files self.old.folder) }
        ensures failed { IsErrOf result LoadRefusal.Failed →
            Rose self.old.load_faults self.new.load_faults }
        ensures later { self.old.load_faults ≤ self.new.load_faults }
        ensures kept { OnOk result (self.new.load_faults ≡ self.old.load_faults) }
        ensures kept_absent { IsErrOf result LoadRefusal.Absent →
            self.new.load_faults ≡ self.old.load_faults }
        ensures kept_want { IsErrOf result LoadRefusal.NoMemory →
            self.new.load_faults ≡ self.old.load_faults }
        ensures saves { self.new.save_faults ≡ self.old.save_faults }

        // Beyond the trait: it fails only where the folder did, or for a file that is too long.
        ensures short { IfOk result (λ bytes. length bytes ≤ 1073741824) }
        ensures cause { IsErrOf result LoadRefusal.Failed →
            Rose (F.faults self.old.folder) (F.faults self.new.folder)
            ⊎ IsLonger (F.files self.old.folder) name.now 1073741824 }
    {
        match load_file(&mut self.folder, name) {
            Err(LoadRefusal::Failed) => {
                self.load_faults = self.load_faults.saturating_add(1);
                Err(LoadRefusal::Failed)
            }
            loaded => loaded,
        }
    }

    fn save(&mut self, name: &Word, bytes: &[u8]) -> Result<(), IoFault>
        ensures saved { OnOk result (Saved (on_shelf (F.files self.old.folder))
            (on_shelf (F.files self.new.folder)) name.now bytes.now) }
        ensures others { OnErr result (OthersKept (on_shelf (F.files self.old.folder))
            (on_shelf (F.files self.new.folder)) name.now) }
        ensures cause { HasCause self.old.save_faults self.new.save_faults result }
        ensures loads { self.new.load_faults ≡ self.old.load_faults }

        // Beyond the trait: the old file or the new one stands, and a cut leaves one of the two, of
        // a save that did not fail the new one.
        ensures whole { OnErr result (SameOrSaved (on_shelf (F.files self.old.folder))
            (on_shelf (F.files self.new.folder)) name.now bytes.now) }
        ensures durable { OnOk result ((left : Option (List ℕ)) →
            F.MayLeave self.new.folder name.now left →
            IsWhole (F.files self.old.folder) bytes.now left) }
        ensures either { (left : Option (List ℕ)) → F.MayLeave self.new.folder name.now left →
            F.MayLeave self.old.folder name.now left
            ⊎ IsWhole (F.files self.old.folder) bytes.now left }
        ensures others_left { (q : List ℕ) → is_kept_name q ≡ false → q ≢ name.now →
            LeavesNoMoreAt (F.MayLeave self.old.folder) (F.MayLeave self.new.folder) q }
    {
        match save_file(self.alloc, &mut self.folder, name, bytes) {
            Ok(()) => Ok(()),
            Err(IoFault) => {
                self.save_faults = self.save_faults.saturating_add(1);
                Err(IoFault)
            }
        }
    }
}

/// Whether a name is kept for the new files of saves.
fn is_kept(name: &Word) -> bool
    ensures { result ≡ is_kept_name name.now }
{
    name.as_slice().contains(&b'~')
}

/// Replaces a file, unless its name is kept for saves.
fn save_file<F: Folder>(
    alloc: Global,
    folder: &mut F,
    name: &Word,
    bytes: &[u8],
) -> Result<(), IoFault>
    ensures saved { OnOk result (Saved (on_shelf (F.files folder.old))
        (on_shelf (F.files folder.new)) name.now bytes.now) }
    ensures whole { OnErr result (SameOrSaved (on_shelf (F.files folder.old))
        (on_shelf (F.files folder.new)) name.now bytes.now) }
    ensures durable { OnOk result ((left : Option (List ℕ)) → F.MayLeave folder.new name.now left →
        IsWhole (F.files folder.old) bytes.now left) }
    ensures either { (left : Option (List ℕ)) → F.MayLeave folder.new name.now left →
        F.MayLeave folder.old name.now left ⊎ IsWhole (F.files folder.old) bytes.now left }
    ensures others { (q : List ℕ) → is_kept_name q ≡ false → q ≢ name.now →
        LeavesNoMoreAt (F.MayLeave folder.old) (F.MayLeave folder.new) q }
{
    if is_kept(name) {
        return Err(IoFault);
    }
    match replace_file(alloc, folder, name, bytes) {
        Ok(()) => Ok(()),
        Err(_) => Err(IoFault),
    }
}

/// The bytes of a file. A name that is kept for saves is no file's.
fn load_file<F: Folder>(folder: &mut F, name: &Word) -> Result<Bytes, LoadRefusal>
    ensures found { IfOk result (λ bytes. Finds (on_shelf (F.files folder.old)) name.now bytes) }
    ensures absent { IsErrOf result LoadRefusal.Absent →
        Misses (on_shelf (F.files folder.old)) name.now }
    ensures same { F.files folder.new ≡ F.files folder.old }
    ensures short { IfOk result (λ bytes. length bytes ≤ 1073741824) }
    ensures cause { IsErrOf result LoadRefusal.Failed →
        Rose (F.faults folder.old) (F.faults folder.new)
        ⊎ IsLonger (F.files folder.old) name.now 1073741824 }
{
    if is_kept(name) {
        return Err(LoadRefusal::Absent);
    }
    if folder.size(name)? > LARGEST_FILE {
        return Err(LoadRefusal::Failed);
    }
    let bytes = folder.read(name, LARGEST_FILE + 1)?;
    if bytes.len() as u64 > LARGEST_FILE {
        return Err(LoadRefusal::Failed);
    }
    Ok(bytes)
}
