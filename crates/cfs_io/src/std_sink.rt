//! A sink over a writer of the standard library.

ghost use Rattle.std.specs.Prelude.{◌≡◌};
ghost use Rattle.std.specs.Io.KnownBytes.{Keeps};
ghost use Rattle.cfs_pmem.specs.Faults.{HasCause};

use crate::{IoFault, Sink};
use std::io::Write;

/// A sink over a writer. It tells the bytes written where the writer tells them, as one in memory
/// does; the standard output does not. A call that the writer fails, also an interrupted one, is a
/// fault, and so is one that takes none of a piece that is not empty.
///
/// The standard output holds nothing back. Over a writer that does, as a `BufWriter`, call `flush`
/// before the sink is let go.
#[derive(Debug, Drop)]
pub struct StdSink<W> {
    writer: W,
    faults: u64,
}

impl<W: Write> StdSink<W> {
    /// A sink over `writer`, which has had no fault. Takes no memory.
    pub fn new(writer: W) -> StdSink<W>
        ensures written { ⟦<StdSink<W> as Sink>⟧.written result ≡ W.contents writer }
        ensures faults { ⟦<StdSink<W> as Sink>⟧.faults result ≡ 0 }
    {
        StdSink { writer, faults: 0 }
    }

    /// Passes on what the writer holds back. A failure is a fault of the sink.
    pub fn flush(&mut self) -> Result<(), IoFault>
        ensures bytes { Keeps (⟦<StdSink<W> as Sink>⟧.written self.old)
            (⟦<StdSink<W> as Sink>⟧.written self.new) }
        ensures cause { HasCause (⟦<StdSink<W> as Sink>⟧.faults self.old)
            (⟦<StdSink<W> as Sink>⟧.faults self.new) result }
    {
        match self.writer.flush() {
            Ok(()) => Ok(()),
            Err(_) => {
                self.faults = self.faults.saturating_add(1);
                Err(IoFault)
            }
        }
    }

    /// How many calls have failed.
    pub fn faults(&self) -> u64
        ensures { result ≡ ⟦<StdSink<W> as Sink>⟧.faults self.now }
    {
        self.faults
    }
}

impl<W: Write> Sink for StdSink<W> {
    ghost written = { λ sink. W.contents sink.writer };

    ghost faults = { λ sink. sink.faults };

    fn write(&mut self, piece: &[u8]) -> Result<usize, IoFault> {
        match self.writer.write(piece) {
            Ok(count) if count > 0 || piece.is_empty() => Ok(count),
            _ => {
                self.faults = self.faults.saturating_add(1);
                Err(IoFault)
            }
        }
    }
}
