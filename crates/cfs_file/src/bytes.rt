//! A list of bytes.

ghost use Rattle.std.specs.Prelude.{◌≡◌, ◌==◌, ◌+◌, length, take, drop, IfOk, OnOk, OnErr};
ghost use Rattle.cfs_file.specs.File.{put, resized};
ghost use Rattle.cfs_file.specs.Position.{Reads, Resizes, Writes};

use crate::NoMemory;
use std::alloc::Global;
use std::marker::Model;

/// A list of bytes, as a file or the payload of a write. Contracts see the list.
#[derive(Debug, Drop, Clone)]
pub struct Bytes {
    vec: Vec<u8>,
}

impl Model for Bytes {
    ghost use Rattle.std.specs.Prelude.{List, ℕ};

    ghost Value = { List ℕ };

    ghost view = { λ b. b.vec.items };
}

impl Bytes {
    /// No bytes. Takes no memory.
    pub fn new(alloc: Global) -> Bytes
        ensures { length result ≡ 0 }
    {
        Bytes {
            vec: Vec::new(alloc),
        }
    }

    /// The bytes of `vec`. Takes no memory.
    pub fn from_vec(vec: Vec<u8>) -> Bytes
        ensures { result ≡ vec.items }
    {
        Bytes { vec }
    }

    /// Gives the bytes back as a vector. Takes no memory.
    pub fn into_vec(self) -> Vec<u8>
        ensures { result.items ≡ self }
    {
        let Bytes { vec } = self;
        vec
    }

    /// A copy of `bytes`.
    pub fn from_slice(alloc: Global, bytes: &[u8]) -> Result<Bytes, NoMemory>
        ensures { IfOk result (λ copy. copy ≡ bytes.now) }
    {
        let vec = Vec::from_slice(alloc, bytes)?;
        Ok(Bytes { vec })
    }

    /// The bytes.
    pub fn as_slice(&self) -> &[u8]
        ensures { result.now ≡ self.now }
    {
        self.vec.as_slice()
    }

    /// How many bytes there are.
    pub fn len(&self) -> usize
        ensures { result ≡ length self.now }
    {
        self.vec.len()
    }

    /// Whether there are none.
    pub fn is_empty(&self) -> bool
        ensures { result ≡ (length self.now == 0) }
    {
        self.vec.is_empty()
    }

    /// Writes `piece` at `offset`; a gap before it is filled with zero bytes (POSIX.1-2017,
    /// write()). Costs the bytes written and filled. An `Err` leaves the bytes as they were.
    pub fn put(&mut self, offset: u64, piece: &[u8]) -> Result<(), NoMemory>
        ensures ok { OnOk result (self.new ≡ put self.old offset piece.now) }
        ensures positions { OnOk result (Writes self.old self.new offset piece.now) }
        ensures err { OnErr result (self.new ≡ self.old) }
    {
        overwrite(&mut self.vec, offset as usize, piece)?;
        Ok(())
    }

    /// Discards what is past `len`, or fills with zero bytes up to it (POSIX.1-2017, ftruncate()).
    /// An `Err` leaves the bytes as they were.
    pub fn resize(&mut self, len: u64) -> Result<(), NoMemory>
        ensures ok { OnOk result (self.new ≡ resized self.old len) }
        ensures positions { OnOk result (Resizes self.old self.new len) }
        ensures err { OnErr result (self.new ≡ self.old) }
    {
        self.vec.resize(len as usize, 0)?;
        Ok(())
    }

    /// The bytes from `offset` on, at most `count` of them; none at or past the end (POSIX.1-2017,
    /// read()). Takes no memory.
    pub fn part(&self, offset: u64, count: u64) -> &[u8]
        ensures part { result.now ≡ take count (drop offset self.now) }
        ensures positions { Reads self.now offset count result.now }
    {
        let bytes = self.vec.as_slice();
        let from = bytes.len().min(offset as usize);
        let rest = &bytes[from..];
        &rest[..rest.len().min(count as usize)]
    }
}

/// Writes `piece` at `offset`, filling a gap with zero bytes. An `Err` changes nothing.
fn overwrite(vec: &mut Vec<u8>, offset: usize, piece: &[u8]) -> Result<(), NoMemory>
    ensures ok { OnOk result (vec.new.items ≡ put vec.old.items offset piece.now) }
    ensures err { OnErr result (vec.new.items ≡ vec.old.items) }
{
    let end = offset.checked_add(piece.len()).ok_or(NoMemory)?;
    vec.reserve(end.saturating_sub(vec.len()))?;
    if vec.len() < offset {
        vec.resize(offset, 0)?;
    }
    let (over, past) = piece.split_at(piece.len().min(vec.len() - offset));
    vec[offset..offset + over.len()].copy_from_slice(over);
    vec.extend_from_slice(past)?;
    Ok(())
}

/// Whether the bytes are the same.
impl PartialEq for Bytes {
    ghost use Rattle.std.specs.Str.{bytes_eq};
    ghost use Rattle.std.proofs.Common.{rules};

    ghost eq = { bytes_eq };

    ghost laws = { Prim.search rules };

    fn eq(&self, other: &Bytes) -> bool {
        self.vec.as_slice() == other.vec.as_slice()
    }
}

impl Eq for Bytes {
    ghost use Rattle.std.proofs.Common.{rules};

    ghost laws = { Prim.search rules };
}
