//! The definitions as a plain program: a file's bytes, taken through requests one by one.

ghost use Rattle.std.specs.Prelude.{◌≡◌, IfOk, OnOk, OnErr};
ghost use Rattle.cfs_file.specs.File.{effect, answer};
ghost use Rattle.cfs_file.specs.Log.{file_of};

use crate::{Answer, Bytes, Entry, NoMemory, Request};
use std::alloc::Global;

/// Takes `file` through `request`. Costs the bytes written, filled or cut.
/// An `Err` leaves the file as it was.
pub fn apply(file: &mut Bytes, request: &Request) -> Result<(), NoMemory>
    ensures ok { OnOk result (file.new ≡ effect file.old request.now) }
    ensures err { OnErr result (file.new ≡ file.old) }
{
    match request {
        Request::Write { offset, bytes } => file.put(*offset, bytes.as_slice()),
        Request::Append { bytes } => file.put(file.len() as u64, bytes.as_slice()),
        Request::Truncate { length } => file.resize(*length),
        Request::Read { .. } | Request::Sync => Ok(()),
    }
}

/// What `request` answers on `file`. Costs the bytes that a read gives.
pub fn answer_on(alloc: Global, file: &Bytes, request: &Request) -> Result<Answer, NoMemory>
    ensures { IfOk result (λ reply. reply ≡ answer file.now request.now) }
{
    match request {
        Request::Write { offset, bytes } => Ok(Answer::Wrote {
            offset: *offset,
            count: bytes.len() as u64,
        }),
        Request::Append { bytes } => Ok(Answer::Wrote {
            offset: file.len() as u64,
            count: bytes.len() as u64,
        }),
        Request::Read { offset, count } => {
            let bytes = Bytes::from_slice(alloc, file.part(*offset, *count))?;
            Ok(Answer::Got(bytes))
        }
        Request::Truncate { .. } | Request::Sync => Ok(Answer::Done),
    }
}

/// The file after a list of entries over a base file. Slow: it takes a copy of the base through
/// every entry.
pub fn file_after(alloc: Global, base: &Bytes, entries: &[Entry]) -> Result<Bytes, NoMemory>
    ensures { IfOk result (λ file. file ≡ file_of base.now entries.now) }
{
    let mut file = Bytes::from_slice(alloc, base.as_slice())?;
    for entry in entries {
        apply(&mut file, &entry.request)?;
    }
    Ok(file)
}

/// What `request` answers on the file after a list of entries over a base file. Slow, as
/// `file_after`.
pub fn answer_of(
    alloc: Global,
    base: &Bytes,
    entries: &[Entry],
    request: &Request,
) -> Result<Answer, NoMemory>
    ensures { IfOk result (λ reply. reply ≡ answer (file_of base.now entries.now) request.now) }
{
    let file = file_after(alloc, base, entries)?;
    answer_on(alloc, &file, request)
}
