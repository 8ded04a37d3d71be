//! Where bytes go.

ghost use Rattle.std.specs.Prelude.{ℕ, List, OnOk, OnErr};
ghost use Rattle.std.specs.declared.option.Option.{Option};
ghost use Rattle.std.specs.Io.{WritesAtMost};
ghost use Rattle.std.specs.Io.KnownBytes.{Appends};
ghost use Rattle.cfs_pmem.specs.Faults.{HasCause};
ghost use Rattle.cfs_io.specs.Streams.{TakesSome, WritesPiece, AppendsFront};

use crate::IoFault;

/// A sink for bytes.
pub trait Sink {
    /// The bytes written so far, where the sink tells them.
    ghost written: { Self → Option (List ℕ) };

    /// How many faults the sink has had. The count stays at the end of `u64`.
    ghost faults: { Self → ℕ };

    /// Writes the front of `piece` and says how many bytes, at least one of a piece that is not
    /// empty. A failed write has added some front of the piece, or nothing (own).
    fn write(&mut self, piece: &[u8]) -> Result<usize, IoFault>
        ensures bound { WritesAtMost result piece.now }
        ensures some { TakesSome result piece.now }
        ensures bytes { WritesPiece (written self.old) (written self.new) result piece.now }
        ensures cause { HasCause (faults self.old) (faults self.new) result };
}

/// Writes the whole of `piece`. A failure has written some front of it, or nothing.
/// Takes no memory.
pub fn write_all<K: Sink>(sink: &mut K, piece: &[u8]) -> Result<(), IoFault>
    ensures whole { OnOk result (Appends (K.written sink.old) (K.written sink.new) piece.now) }
    ensures front { OnErr result
        (AppendsFront (K.written sink.old) (K.written sink.new) piece.now) }
    ensures cause { HasCause (K.faults sink.old) (K.faults sink.new) result }
{
    let mut at = 0;
    'pieces: while at < piece.len() {
        at += sink.write(&piece[at..])?;
    }
    Ok(())
}
