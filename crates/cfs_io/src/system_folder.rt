//! The files of the system.

ghost use Rattle.std.specs.Prelude.{◌≡◌, ◌≤◌, None, IsErrOf};
ghost use Rattle.cfs_pmem.specs.Faults.{HasCause, Rose};

use crate::{CreateRefusal, Folder, IoFault, LoadRefusal};
use cfs_file::{Bytes, Word};
use std::alloc::Global;
use std::fs::{File, Files, OpenFile};
use std::io::{ErrorKind, Read, Write};
use std::{fs, io};

/// The files of the system: the name of a file is its path. It tells nothing of them.
///
/// What is no file is not read, and a name that is no text is a fault.
#[derive(Debug, Drop)]
pub struct SystemFolder<R> {
    files: R,
    alloc: Global,
    faults: u64,
}

impl<R: Files> SystemFolder<R> {
    /// The files of `files`, which have had no fault. Takes no memory.
    pub fn new(files: R, alloc: Global) -> SystemFolder<R>
        ensures { ⟦<SystemFolder<R> as Folder>⟧.faults result ≡ 0 }
    {
        SystemFolder {
            files,
            alloc,
            faults: 0,
        }
    }

    /// Counts a step that failed.
    fn counted<T>(&mut self, step: io::Result<T>) -> Result<T, IoFault>
        ensures { HasCause self.old.faults self.new.faults result }
    {
        match step {
            Ok(value) => Ok(value),
            Err(_) => {
                self.faults = self.faults.saturating_add(1);
                Err(IoFault)
            }
        }
    }

    /// The same of a step that finds and reads.
    fn counted_load<T>(&mut self, step: Result<T, LoadRefusal>) -> Result<T, LoadRefusal>
        ensures failed { IsErrOf result LoadRefusal.Failed → Rose self.old.faults self.new.faults }
        ensures later { self.old.faults ≤ self.new.faults }
    {
        if let Err(LoadRefusal::Failed) = step {
            self.faults = self.faults.saturating_add(1);
        }
        step
    }
}

impl<R: Files> Folder for SystemFolder<R> {
    type File = R::File;

    ghost files = { λ folder. None };

    ghost MayLeave = { λ folder name left. ⊥ };

    ghost IsSynced = { λ folder name. Unit {0} };

    ghost Opens = { λ file name. Unit {0} };

    ghost faults = { λ folder. folder.faults };

    fn size(&mut self, name: &Word) -> Result<u64, LoadRefusal> {
        let size = size_of_file(&self.files, name);
        self.counted_load(size)
    }

    fn read(&mut self, name: &Word, most: u64) -> Result<Bytes, LoadRefusal> {
        let front = read_front(&self.files, self.alloc, name, most);
        self.counted_load(front)
    }

    fn create(&mut self, name: &Word) -> Result<R::File, CreateRefusal> {
        match create_new(&self.files, name) {
            Err(error) if error.kind() == ErrorKind::AlreadyExists => Err(CreateRefusal::Taken),
            created => self.counted(created).or(Err(CreateRefusal::Failed)),
        }
    }

    fn keep_mode(&mut self, file: &R::File, name: &Word) -> Result<(), IoFault> {
        let kept = copy_mode(&self.files, file, name);
        self.counted(kept)
    }

    fn fill(&mut self, file: &mut R::File, bytes: &[u8]) -> Result<(), IoFault> {
        let written = file.write_all(bytes);
        self.counted(written)
    }

    fn sync(&mut self, file: &R::File) -> Result<(), IoFault> {
        self.counted(file.sync_all())
    }

    fn rename(&mut self, from: &Word, to: &Word) -> Result<(), IoFault> {
        let renamed = move_file(&self.files, from, to);
        self.counted(renamed)
    }

    fn remove(&mut self, name: &Word) -> Result<(), IoFault> {
        let removed = remove_file(&self.files, name);
        self.counted(removed)
    }

    fn sync_names(&mut self, name: &Word) -> Result<(), IoFault> {
        let synced = sync_folder(&self.files, name);
        self.counted(synced)
    }
}

/// The path that a name is.
fn path_of(name: &Word) -> io::Result<&str> {
    str::from_utf8(name.as_slice()).or(Err(io::Error::from(ErrorKind::InvalidInput)))
}

/// What a failure of the system means for what finds and reads.
fn refusal_of(error: io::Error) -> LoadRefusal {
    match error.kind() {
        ErrorKind::NotFound | ErrorKind::NotADirectory => LoadRefusal::Absent,
        ErrorKind::OutOfMemory => LoadRefusal::NoMemory,
        _ => LoadRefusal::Failed,
    }
}

fn size_of_file<R: Files>(files: &R, name: &Word) -> Result<u64, LoadRefusal> {
    let path = path_of(name).map_err(refusal_of)?;
    let metadata = fs::metadata(files, path).map_err(refusal_of)?;
    if !metadata.is_file() {
        return Err(LoadRefusal::Failed);
    }
    Ok(metadata.len())
}

fn read_front<R: Files>(
    files: &R,
    alloc: Global,
    name: &Word,
    most: u64,
) -> Result<Bytes, LoadRefusal> {
    let path = path_of(name).map_err(refusal_of)?;
    let file = fs::open(files, path).map_err(refusal_of)?;
    let size = file.metadata().map_err(refusal_of)?.len();
    let mut bytes = Vec::new(alloc);
    bytes.reserve(size.min(most) as usize)?;
    file.take(most).read_to_end(&mut bytes).map_err(refusal_of)?;
    Ok(Bytes::from_vec(bytes))
}

fn create_new<R: Files>(files: &R, name: &Word) -> io::Result<R::File> {
    File::create_new(files, path_of(name)?)
}

/// Gives an open file the permissions of the file of a name, if there is one.
fn copy_mode<R: Files>(files: &R, file: &R::File, name: &Word) -> io::Result<()> {
    match fs::metadata(files, path_of(name)?) {
        Ok(old) => file.set_permissions(old.permissions()),
        Err(error) if error.kind() == ErrorKind::NotFound => Ok(()),
        Err(error) => Err(error),
    }
}

fn move_file<R: Files>(files: &R, from: &Word, to: &Word) -> io::Result<()> {
    files.rename(path_of(from)?, path_of(to)?)
}

fn remove_file<R: Files>(files: &R, name: &Word) -> io::Result<()> {
    files.remove_file(path_of(name)?)
}

/// Makes the names in the folder of a name durable.
fn sync_folder<R: Files>(files: &R, name: &Word) -> io::Result<()> {
    let folder = match path_of(name)?.rsplit_once('/') {
        Some(("", _)) => "/",
        Some((folder, _)) => folder,
        None => ".",
    };
    fs::open(files, folder)?.sync_all()
}
