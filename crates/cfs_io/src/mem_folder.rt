//! A folder in memory.

ghost use Rattle.std.specs.Prelude.{◌≡◌, ◌≤◌, Some, List, ℕ, IfOk};
ghost use Rattle.std.specs.Option.{option_copied};
ghost use Rattle.std.specs.FinMap.{get, insert, remove};
ghost use Rattle.cfs_pmem.specs.Faults.{HasCause, Rose};
ghost use Rattle.cfs_io.specs.Files.{files_of, with_or_without};

use crate::call_plan::CallPlan;
use crate::mem_shelf::index_of;
use crate::{CreateRefusal, Folder, IoFault, LoadRefusal};
use cfs_file::{Bytes, NoMemory, Word};
use std::alloc::Global;

/// A folder that keeps its files in memory, with steps that are to fail; steps count from 1. It
/// keeps what reads give, what is sure of each file, and what stands under each name for sure, so
/// it can be cut at every step. A step copies its lists. A step that is to fail changes nothing,
/// but that a `fill` writes the first half. Want of memory is a fault, but of a `size`
/// and a `read`.
#[derive(Debug, Drop)]
pub struct MemFolder {
    alloc: Global,
    files: Vec<(Word, Bytes)>,
    /// The bytes of files that are sure, by name.
    sure: Vec<(Word, Bytes)>,
    /// The files that stand under their names for sure.
    kept: Vec<(Word, Bytes)>,
    calls: CallPlan,
    faults: u64,
}

/// An open file of a folder in memory.
#[derive(Debug, Drop)]
pub struct MemFile {
    name: Word,
}

impl MemFolder {
    ghost use Rattle.cfs_io.specs.MemoryFolder.{folder_files, folder_steps, failing_steps};

    /// A folder with these files, all of them sure, whose steps with the numbers in `failing` are
    /// to fail; of two files with one name the first counts.
    pub fn new(
        alloc: Global,
        files: &[(Word, Bytes)],
        failing: Vec<u64>,
    ) -> Result<MemFolder, NoMemory>
        ensures files { IfOk result (λ folder. folder_files folder ≡ files_of files.now) }
        ensures steps { IfOk result (λ folder. folder_steps folder ≡ 0) }
        ensures failing { IfOk result (λ folder. failing_steps folder ≡ failing.items) }
    {
        Ok(MemFolder {
            alloc,
            files: copy(alloc, files)?,
            sure: copy(alloc, files)?,
            kept: copy(alloc, files)?,
            calls: CallPlan::new(failing),
            faults: 0,
        })
    }

    /// How many steps were made.
    pub fn steps(&self) -> u64
        ensures { result ≡ folder_steps self.now }
    {
        self.calls.made
    }

    /// How many steps have failed.
    pub fn faults(&self) -> u64
        ensures { result ≡ ⟦<MemFolder as Folder>⟧.faults self.now }
    {
        self.faults
    }

    /// A folder with what a cut leaves, none of whose steps fails: under each name what stands
    /// there for sure, or, with `renamed`, what is sure of the file that stands there now.
    pub fn after_cut(&self, renamed: bool) -> Result<MemFolder, NoMemory>
        ensures { IfOk result (λ folder. (name : List ℕ) →
            ⟦<MemFolder as Folder>⟧.MayLeave self.now name (get (folder_files folder) name)) }
    {
        let left = if renamed { &self.sure } else { &self.kept };
        MemFolder::new(self.alloc, left, Vec::new(self.alloc))
    }

    /// Counts one more step, which may be one that is to fail.
    fn step(&mut self) -> Result<(), IoFault>
        ensures files { self.new.files ≡ self.old.files }
        ensures sure { self.new.sure ≡ self.old.sure }
        ensures kept { self.new.kept ≡ self.old.kept }
        ensures cause { HasCause self.old.faults self.new.faults result }
    {
        if self.calls.next_fails() {
            return Err(self.fault());
        }
        Ok(())
    }

    /// Counts a fault.
    fn fault(&mut self) -> IoFault
        ensures files { self.new.files ≡ self.old.files }
        ensures sure { self.new.sure ≡ self.old.sure }
        ensures kept { self.new.kept ≡ self.old.kept }
        ensures later { self.old.faults ≤ self.new.faults }
        ensures rose { Rose self.old.faults self.new.faults }
    {
        self.faults = self.faults.saturating_add(1);
        IoFault
    }

    /// Counts want of memory as a fault.
    fn counted<T>(&mut self, made: Result<T, NoMemory>) -> Result<T, IoFault>
        ensures files { self.new.files ≡ self.old.files }
        ensures sure { self.new.sure ≡ self.old.sure }
        ensures kept { self.new.kept ≡ self.old.kept }
        ensures cause { HasCause self.old.faults self.new.faults result }
        ensures made { IfOk result (λ value. made ≡ Ok value) }
    {
        match made {
            Ok(value) => Ok(value),
            Err(NoMemory) => Err(self.fault()),
        }
    }
}

impl Folder for MemFolder {
    ghost use Rattle.cfs_io.specs.MemoryFolder.{AreSure, CutLeaves, folder_files};

    type File = MemFile;

    ghost files = { λ folder. Some (folder_files folder) };

    ghost MayLeave = { CutLeaves };

    ghost IsSynced = { AreSure };

    ghost Opens = { λ file name. file.name ≡ name };

    ghost faults = { λ folder. folder.faults };

    fn size(&mut self, name: &Word) -> Result<u64, LoadRefusal> {
        self.step()?;
        match find(&self.files, name) {
            Some(bytes) => Ok(bytes.len() as u64),
            None => Err(LoadRefusal::Absent),
        }
    }

    fn read(&mut self, name: &Word, most: u64) -> Result<Bytes, LoadRefusal> {
        self.step()?;
        match find(&self.files, name) {
            Some(bytes) => Ok(Bytes::from_slice(self.alloc, bytes.part(0, most))?),
            None => Err(LoadRefusal::Absent),
        }
    }

    fn create(&mut self, name: &Word) -> Result<MemFile, CreateRefusal> {
        self.step()?;
        if find(&self.files, name).is_some() {
            return Err(CreateRefusal::Taken);
        }
        let alloc = self.alloc;
        let own = self.counted(Word::from_slice(alloc, name.as_slice()))?;
        let files = with(alloc, &self.files, name, &[]);
        let files = self.counted(files)?;
        let sure = without(alloc, &self.sure, name);
        self.sure = self.counted(sure)?;
        self.files = files;
        Ok(MemFile { name: own })
    }

    fn keep_mode(&mut self, _file: &MemFile, _name: &Word) -> Result<(), IoFault> {
        self.step()
    }

    fn fill(&mut self, file: &mut MemFile, bytes: &[u8]) -> Result<(), IoFault> {
        let step = self.step();
        let front = if step.is_err() {
            &bytes[..bytes.len() / 2]
        } else {
            bytes
        };
        let files = with(self.alloc, &self.files, &file.name, front);
        self.files = self.counted(files)?;
        step
    }

    fn sync(&mut self, file: &MemFile) -> Result<(), IoFault> {
        self.step()?;
        let found = find(&self.files, &file.name);
        let sure = with_found(self.alloc, &self.sure, &file.name, found);
        self.sure = self.counted(sure)?;
        Ok(())
    }

    fn rename(&mut self, from: &Word, to: &Word) -> Result<(), IoFault> {
        self.step()?;
        if find(&self.files, from).is_none() {
            return Err(self.fault());
        }
        let alloc = self.alloc;
        let files = moved(alloc, &self.files, from, to);
        let files = self.counted(files)?;
        let sure = moved(alloc, &self.sure, from, to);
        self.sure = self.counted(sure)?;
        self.files = files;
        Ok(())
    }

    fn remove(&mut self, name: &Word) -> Result<(), IoFault> {
        self.step()?;
        if find(&self.files, name).is_none() {
            return Err(self.fault());
        }
        let alloc = self.alloc;
        let files = without(alloc, &self.files, name);
        let files = self.counted(files)?;
        let sure = without(alloc, &self.sure, name);
        self.sure = self.counted(sure)?;
        self.files = files;
        Ok(())
    }

    fn sync_names(&mut self, name: &Word) -> Result<(), IoFault> {
        self.step()?;
        let found = find(&self.sure, name);
        let kept = with_found(self.alloc, &self.kept, name, found);
        self.kept = self.counted(kept)?;
        Ok(())
    }
}

/// The first file of this name.
fn find<'a>(files: &'a [(Word, Bytes)], name: &Word) -> Option<&'a Bytes>
    ensures { option_copied result ≡ get (files_of files.now) name.now }
{
    match index_of(files, name) {
        Some(at) => Some(&files[at].1),
        None => None,
    }
}

/// A copy of a file.
fn copy_of(alloc: Global, file: &(Word, Bytes)) -> Result<(Word, Bytes), NoMemory>
    ensures { IfOk result (λ copy. copy ≡ file.now) }
{
    let name = Word::from_slice(alloc, file.0.as_slice())?;
    let bytes = Bytes::from_slice(alloc, file.1.as_slice())?;
    Ok((name, bytes))
}

/// A copy of files.
fn copy(alloc: Global, files: &[(Word, Bytes)]) -> Result<Vec<(Word, Bytes)>, NoMemory>
    ensures { IfOk result (λ new. new.items ≡ files.now) }
{
    let mut new = Vec::new(alloc);
    for file in files {
        new.push(copy_of(alloc, file)?)?;
    }
    Ok(new)
}

/// Files with one of this name that has these bytes.
fn with(
    alloc: Global,
    files: &[(Word, Bytes)],
    name: &Word,
    bytes: &[u8],
) -> Result<Vec<(Word, Bytes)>, NoMemory>
    ensures { IfOk result (λ new. files_of new.items
        ≡ insert (files_of files.now) name.now bytes.now) }
{
    let file = (
        Word::from_slice(alloc, name.as_slice())?,
        Bytes::from_slice(alloc, bytes)?,
    );
    let mut new = copy(alloc, files)?;
    new.insert(0, file)?;
    Ok(new)
}

/// Files without those of this name.
fn without(
    alloc: Global,
    files: &[(Word, Bytes)],
    name: &Word,
) -> Result<Vec<(Word, Bytes)>, NoMemory>
    ensures { IfOk result (λ new. files_of new.items ≡ remove (files_of files.now) name.now) }
{
    let mut new = Vec::new(alloc);
    for file in files {
        if file.0 != *name {
            new.push(copy_of(alloc, file)?)?;
        }
    }
    Ok(new)
}

/// Files with what was found in place of the one of this name.
fn with_found(
    alloc: Global,
    files: &[(Word, Bytes)],
    name: &Word,
    found: Option<&Bytes>,
) -> Result<Vec<(Word, Bytes)>, NoMemory>
    ensures { IfOk result (λ new. files_of new.items
        ≡ with_or_without (files_of files.now) name.now (option_copied found.entry)) }
{
    match found {
        Some(bytes) => with(alloc, files, name, bytes.as_slice()),
        None => without(alloc, files, name),
    }
}

/// Files with the one of the first name under the second, in place of one that is there.
fn moved(
    alloc: Global,
    files: &[(Word, Bytes)],
    from: &Word,
    to: &Word,
) -> Result<Vec<(Word, Bytes)>, NoMemory>
    ensures { IfOk result (λ new. files_of new.items
        ≡ with_or_without (remove (files_of files.now) from.now) to.now
        (get (files_of files.now) from.now)) }
{
    let rest = without(alloc, files, from)?;
    with_found(alloc, &rest, to, find(files, from))
}
