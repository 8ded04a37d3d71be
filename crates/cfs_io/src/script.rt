//! The whole of a script, from a source.

ghost use Rattle.std.specs.Prelude.{◌≡◌, ◌+◌, ◌≤◌, length, IfOk, OnOk, OnErr, IsErrOf};
ghost use Rattle.std.specs.Io.KnownBytes.{Consumes, IsAtEnd};
ghost use Rattle.cfs_pmem.specs.Faults.{Rose};
ghost use Rattle.cfs_io.specs.Streams.{MoreCame, AtMostCame, SomeCame};

use crate::{ReadRefusal, Source};
use cfs_file::Bytes;
use std::alloc::Global;

/// The most bytes that a script may have (own).
pub const LONGEST_SCRIPT: u64 = 16_777_216;

/// How many bytes one read asks for.
const PIECE: usize = 65_536;

/// All the bytes that `source` has left. More than `LONGEST_SCRIPT` bytes are refused (own).
///
/// Each read but the last gives at least one byte. The bytes that came before a refusal are gone.
pub fn read_script<S: Source>(alloc: Global, source: &mut S) -> Result<Bytes, ReadRefusal>
    ensures all { IfOk result (λ bytes. Consumes (S.left source.old) (S.left source.new) bytes) }
    ensures end { OnOk result (IsAtEnd (S.left source.new)) }

    // It is too long exactly where more came.
    ensures short { IfOk result (λ bytes. length bytes ≤ LONGEST_SCRIPT) }
    ensures long { IsErrOf result ReadRefusal.TooLong →
        MoreCame (S.left source.old) (S.left source.new) LONGEST_SCRIPT }
    ensures failed_short { IsErrOf result ReadRefusal.Failed →
        AtMostCame (S.left source.old) (S.left source.new) LONGEST_SCRIPT }
    ensures taken { OnErr result (SomeCame (S.left source.old) (S.left source.new)) }

    // It failed only where the source did.
    ensures failed { IsErrOf result ReadRefusal.Failed →
        Rose (S.faults source.old) (S.faults source.new) }
    ensures later { S.faults source.old ≤ S.faults source.new }
    ensures kept { OnOk result (S.faults source.new ≡ S.faults source.old) }
    ensures kept_long { IsErrOf result ReadRefusal.TooLong →
        S.faults source.new ≡ S.faults source.old }
    ensures kept_want { IsErrOf result ReadRefusal.NoMemory →
        S.faults source.new ≡ S.faults source.old }

    // How many reads it takes.
    ensures reads { IfOk result (λ bytes.
        S.reads source.new ≤ S.reads source.old + length bytes + 1) }
    ensures reads_at_most { S.reads source.new ≤ S.reads source.old + LONGEST_SCRIPT + 1 }
{
    let mut bytes = Vec::new(alloc);
    let mut piece = [0; PIECE];
    'pieces: loop {
        let count = source.read(&mut piece)?;
        if count == 0 {
            return Ok(Bytes::from_vec(bytes));
        }
        bytes.extend_from_slice(&piece[..count])?;
        if bytes.len() as u64 > LONGEST_SCRIPT {
            return Err(ReadRefusal::TooLong);
        }
    }
}
