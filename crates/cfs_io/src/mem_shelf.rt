//! A shelf in memory.

ghost use Rattle.std.specs.Prelude.{◌≡◌, ◌≤◌, ◌↔◌, Some, IfOk, IfSome, IsErr, OnOk, OnErr, IsErrOf, Contains};
ghost use Rattle.std.specs.List.{position};
ghost use Rattle.std.specs.Str.{bytes_eq};
ghost use Rattle.std.specs.FinMap.{insert};
ghost use Rattle.cfs_pmem.specs.Faults.{HasCause, Rose};
ghost use Rattle.cfs_io.specs.Counts.{next_count};
ghost use Rattle.cfs_io.specs.Files.{Finds, Misses, Saved, OthersKept, files_of};

use crate::call_plan::CallPlan;
use crate::{IoFault, LoadRefusal, Shelf};
use cfs_file::{Bytes, NoMemory, Word};
use std::alloc::Global;

/// A shelf that keeps its files in memory, with calls that are to fail; loads and saves count
/// together, from 1. A call that is to fail changes no file. A call costs one look at each file's
/// name. A save that wants memory is a fault of the shelf and changes no file; a load that wants
/// memory says so.
#[derive(Debug, Drop)]
pub struct MemShelf {
    alloc: Global,
    files: Vec<(Word, Bytes)>,
    calls: CallPlan,
    load_faults: u64,
    save_faults: u64,
}

impl MemShelf {
    ghost use Rattle.cfs_io.specs.Memory.{shelf_files, failing_calls, shelf_calls};
    ghost use Rattle.std.specs.FinMap.{empty};

    /// A shelf with no files, whose calls with the numbers in `failing` are to fail.
    /// Takes no memory.
    pub fn new(alloc: Global, failing: Vec<u64>) -> MemShelf
        ensures files { shelf_files result ≡ empty }
        ensures failing { failing_calls result ≡ failing.items }
        ensures calls { shelf_calls result ≡ 0 }
        ensures load_faults { ⟦<MemShelf as Shelf>⟧.load_faults result ≡ 0 }
        ensures save_faults { ⟦<MemShelf as Shelf>⟧.save_faults result ≡ 0 }
    {
        MemShelf::with_files(alloc, Vec::new(alloc), failing)
    }

    /// The same with these files; of two with one name the first counts. Takes no memory.
    pub fn with_files(alloc: Global, files: Vec<(Word, Bytes)>, failing: Vec<u64>) -> MemShelf
        ensures files { shelf_files result ≡ files_of files.items }
        ensures failing { failing_calls result ≡ failing.items }
        ensures calls { shelf_calls result ≡ 0 }
        ensures load_faults { ⟦<MemShelf as Shelf>⟧.load_faults result ≡ 0 }
        ensures save_faults { ⟦<MemShelf as Shelf>⟧.save_faults result ≡ 0 }
    {
        MemShelf {
            alloc,
            files,
            calls: CallPlan::new(failing),
            load_faults: 0,
            save_faults: 0,
        }
    }

    /// How many loads have met a fault.
    pub fn load_faults(&self) -> u64
        ensures { result ≡ ⟦<MemShelf as Shelf>⟧.load_faults self.now }
    {
        self.load_faults
    }

    /// How many saves have met a fault.
    pub fn save_faults(&self) -> u64
        ensures { result ≡ ⟦<MemShelf as Shelf>⟧.save_faults self.now }
    {
        self.save_faults
    }
}

impl Shelf for MemShelf {
    ghost use Rattle.cfs_io.specs.Memory.{shelf_files, failing_calls, shelf_calls};

    ghost files = { λ shelf. Some (shelf_files shelf) };

    ghost load_faults = { λ shelf. shelf.load_faults };

    ghost save_faults = { λ shelf. shelf.save_faults };

    fn load(&mut self, name: &Word) -> Result<Bytes, LoadRefusal>
        ensures found { IfOk result (λ bytes. Finds (Some (shelf_files self.old)) name.now bytes) }
        ensures absent { IsErrOf result LoadRefusal.Absent →
            Misses (Some (shelf_files self.old)) name.now }
        ensures same { Some (shelf_files self.new) ≡ Some (shelf_files self.old) }
        ensures failed { IsErrOf result LoadRefusal.Failed →
            Rose self.old.load_faults self.new.load_faults }
        ensures later { self.old.load_faults ≤ self.new.load_faults }
        ensures kept { OnOk result (self.new.load_faults ≡ self.old.load_faults) }
        ensures kept_absent { IsErrOf result LoadRefusal.Absent →
            self.new.load_faults ≡ self.old.load_faults }
        ensures kept_want { IsErrOf result LoadRefusal.NoMemory →
            self.new.load_faults ≡ self.old.load_faults }
        ensures saves { self.new.save_faults ≡ self.old.save_faults }

        // Beyond the trait: which loads fail.
        ensures fails { IsErrOf result LoadRefusal.Failed ↔
            Contains (failing_calls self.old) (shelf_calls self.new) }
        ensures calls { shelf_calls self.new ≡ next_count (shelf_calls self.old) }
        ensures failing { failing_calls self.new ≡ failing_calls self.old }
    {
        if self.calls.next_fails() {
            self.load_faults = self.load_faults.saturating_add(1);
            return Err(LoadRefusal::Failed);
        }
        find(self.alloc, &self.files, name)
    }

    fn save(&mut self, name: &Word, bytes: &[u8]) -> Result<(), IoFault>
        ensures saved { OnOk result
            (Saved (Some (shelf_files self.old)) (Some (shelf_files self.new)) name.now bytes.now) }
        ensures others { OnErr result
            (OthersKept (Some (shelf_files self.old)) (Some (shelf_files self.new)) name.now) }
        ensures cause { HasCause self.old.save_faults self.new.save_faults result }
        ensures loads { self.new.load_faults ≡ self.old.load_faults }

        // Beyond the trait: which saves fail, and that a failed one changes no file.
        ensures fails { Contains (failing_calls self.old) (shelf_calls self.new) → IsErr result }
        ensures same { OnErr result (shelf_files self.new ≡ shelf_files self.old) }
        ensures calls { shelf_calls self.new ≡ next_count (shelf_calls self.old) }
        ensures failing { failing_calls self.new ≡ failing_calls self.old }
    {
        let alloc = self.alloc;
        if self.calls.next_fails() || put(alloc, &mut self.files, name, bytes).is_err() {
            self.save_faults = self.save_faults.saturating_add(1);
            return Err(IoFault);
        }
        Ok(())
    }
}

/// Where the first file of this name stands.
pub(crate) fn index_of(files: &[(Word, Bytes)], name: &Word) -> Option<usize>
    ensures { result ≡ position (λ file. bytes_eq file.0 name.now) files.now }
{
    files.iter().position(|file| file.0 == *name)
}

/// A copy of the file of this name.
fn find(alloc: Global, files: &[(Word, Bytes)], name: &Word) -> Result<Bytes, LoadRefusal>
    ensures found { IfOk result (λ bytes. Finds (Some (files_of files.now)) name.now bytes) }
    ensures absent { IsErrOf result LoadRefusal.Absent →
        Misses (Some (files_of files.now)) name.now }
    ensures never { IsErrOf result LoadRefusal.Failed → ⊥ }
{
    match index_of(files, name) {
        Some(at) => Ok(Bytes::from_slice(alloc, files[at].1.as_slice())?),
        None => Err(LoadRefusal::Absent),
    }
}

/// Makes `bytes` the file of this name, in place of one that is there.
fn put(
    alloc: Global,
    files: &mut Vec<(Word, Bytes)>,
    name: &Word,
    bytes: &[u8],
) -> Result<(), NoMemory>
    ensures ok { OnOk result
        (files_of files.new.items ≡ insert (files_of files.old.items) name.now bytes.now) }
    ensures err { OnErr result (files_of files.new.items ≡ files_of files.old.items) }
{
    let file = (
        Word::from_slice(alloc, name.as_slice())?,
        Bytes::from_slice(alloc, bytes)?,
    );
    match index_of(files, name) {
        Some(at) => files[at] = file,
        None => files.push(file)?,
    }
    Ok(())
}
