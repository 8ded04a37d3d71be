//! A file put in place of another.

ghost use Rattle.std.specs.Prelude.{◌≡◌, ◌⊎◌, ◌≢◌, ◌<◌, ◌≤◌, [], ℕ, List, false, true, IfOk, IfErr, OnOk, OnErr};
ghost use Rattle.std.specs.declared.option.Option.{Option};
ghost use Rattle.cfs_pmem.specs.Faults.{HasCause};
ghost use Rattle.cfs_io.specs.Files.{Finds};
ghost use Rattle.cfs_io.specs.Folder.{IsWhole, LeavesNoMoreAt, Made, OthersStay, Put, Replaced, is_kept_name};
ghost use Rattle.cfs_io.specs.Saves.{CauseOf, LeftBy, name_beside};

use crate::{CreateRefusal, Folder, IoFault, SaveRefusal};
use cfs_file::{NoMemory, Word};
use std::alloc::Global;

/// How many names a save tries for its new file.
const NAMES_TRIED: u8 = 10;

/// Puts a file of these bytes in place of the file `name`, if there is one: by a new file beside
/// it, which is made durable and then renamed. So a failure before the rename, or a cut of the
/// power, leaves the old file, and one behind it the new one whole.
pub(crate) fn replace_file<F: Folder>(
    alloc: Global,
    folder: &mut F,
    name: &Word,
    bytes: &[u8],
) -> Result<(), SaveRefusal>
    requires { is_kept_name name.now ≡ false }
    ensures saved { OnOk result (Put (F.files folder.old) (F.files folder.new) name.now bytes.now) }
    ensures durable { OnOk result ((left : Option (List ℕ)) → F.MayLeave folder.new name.now left →
        IsWhole (F.files folder.old) bytes.now left) }

    ensures left { IfErr result (λ refusal.
        LeftBy refusal (F.files folder.old) (F.files folder.new) name.now bytes.now) }
    ensures cause { IfErr result (λ refusal.
        CauseOf refusal (F.files folder.old) name.now (F.faults folder.old) (F.faults folder.new)) }

    // What a cut may leave, whatever the answer.
    ensures either { (left : Option (List ℕ)) → F.MayLeave folder.new name.now left →
        F.MayLeave folder.old name.now left ⊎ IsWhole (F.files folder.old) bytes.now left }
    ensures others { (q : List ℕ) → is_kept_name q ≡ false → q ≢ name.now →
        LeavesNoMoreAt (F.MayLeave folder.old) (F.MayLeave folder.new) q }
{
    let (mut file, beside) = create_beside(alloc, folder, name)?;
    if let Err(IoFault) = move_into_place(folder, &mut file, &beside, name, bytes) {
        match folder.remove(&beside) {
            Ok(()) => return Err(SaveRefusal::Unchanged),
            Err(IoFault) => return Err(SaveRefusal::LeftBeside),
        }
    }
    match folder.sync_names(name) {
        Ok(()) => Ok(()),
        Err(IoFault) => Err(SaveRefusal::NotDurable),
    }
}

/// Fills a new file, makes it durable and moves it into place.
fn move_into_place<F: Folder>(
    folder: &mut F,
    file: &mut F::File,
    beside: &Word,
    name: &Word,
    bytes: &[u8],
) -> Result<(), IoFault>
    requires opens { F.Opens file.old beside.now }
    requires empty { Finds (F.files folder.old) beside.now [] }
    requires apart { beside.now ≢ name.now }
    ensures moved { OnOk result (Replaced (F.files folder.old) (F.files folder.new)
        beside.now name.now bytes.now) }
    ensures synced { OnOk result (F.IsSynced folder.new name.now) }
    ensures kept { OnErr result (OthersStay (F.files folder.old) (F.files folder.new) beside.now) }
    ensures either { (left : Option (List ℕ)) → F.MayLeave folder.new name.now left →
        F.MayLeave folder.old name.now left ⊎ IsWhole (F.files folder.old) bytes.now left }
    ensures others { (q : List ℕ) → q ≢ beside.now → q ≢ name.now →
        LeavesNoMoreAt (F.MayLeave folder.old) (F.MayLeave folder.new) q }
    ensures cause { HasCause (F.faults folder.old) (F.faults folder.new) result }
{
    folder.keep_mode(file, name)?;
    folder.fill(file, bytes)?;
    folder.sync(file)?;
    folder.rename(beside, name)
}

/// Makes a new file beside a file, under a name that no file has.
fn create_beside<F: Folder>(
    alloc: Global,
    folder: &mut F,
    name: &Word,
) -> Result<(F::File, Word), SaveRefusal>
    ensures made { IfOk result (λ made. Made (F.files folder.old) (F.files folder.new) made.1) }
    ensures opens { IfOk result (λ made. F.Opens made.0 made.1) }
    ensures kept { IfOk result (λ made. is_kept_name made.1 ≡ true) }
    ensures left { (q : List ℕ) → is_kept_name q ≡ false →
        LeavesNoMoreAt (F.MayLeave folder.old) (F.MayLeave folder.new) q }
    ensures kept_all { IfErr result (λ refusal. (bytes : List ℕ) →
        LeftBy refusal (F.files folder.old) (F.files folder.new) name.now bytes) }
    ensures cause { IfErr result (λ refusal.
        CauseOf refusal (F.files folder.old) name.now (F.faults folder.old) (F.faults folder.new)) }
    ensures later { F.faults folder.old ≤ F.faults folder.new }
{
    for number in 0..NAMES_TRIED {
        let beside = name_beside(alloc, name, number)?;
        match folder.create(&beside) {
            Ok(file) => return Ok((file, beside)),
            Err(CreateRefusal::Taken) => {}
            Err(CreateRefusal::Failed) => return Err(SaveRefusal::Unchanged),
        }
    }
    Err(SaveRefusal::NamesTaken)
}

/// A name for a new file: the file's own, a `~`, and a digit.
fn name_beside(alloc: Global, name: &Word, number: u8) -> Result<Word, NoMemory>
    requires { number < 10 }
    ensures { IfOk result (λ beside. beside ≡ name_beside name.now number) }
{
    let mut beside = Vec::from_slice(alloc, name.as_slice())?;
    beside.push(b'~')?;
    beside.push(b'0' + number)?;
    Ok(Word::from_vec(beside))
}
