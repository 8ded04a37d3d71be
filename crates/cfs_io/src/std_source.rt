//! A source over a reader of the standard library.

ghost use Rattle.std.specs.Prelude.{◌≡◌};

use crate::{IoFault, Source};
use std::io::Read;

/// A source over a reader. It tells the bytes left where the reader tells them, as one in memory
/// does; the standard input does not. Each call that the reader fails, also an interrupted one,
/// is a fault.
#[derive(Debug, Drop)]
pub struct StdSource<R> {
    reader: R,
    faults: u64,
    reads: u64,
}

impl<R: Read> StdSource<R> {
    /// A source over `reader`, which has had no fault. Takes no memory.
    pub fn new(reader: R) -> StdSource<R>
        ensures left { ⟦<StdSource<R> as Source>⟧.left result ≡ R.remaining reader }
        ensures faults { ⟦<StdSource<R> as Source>⟧.faults result ≡ 0 }
        ensures reads { ⟦<StdSource<R> as Source>⟧.reads result ≡ 0 }
    {
        StdSource {
            reader,
            faults: 0,
            reads: 0,
        }
    }

    /// How many reads have failed.
    pub fn faults(&self) -> u64
        ensures { result ≡ ⟦<StdSource<R> as Source>⟧.faults self.now }
    {
        self.faults
    }
}

impl<R: Read> Source for StdSource<R> {
    ghost left = { λ source. R.remaining source.reader };

    ghost faults = { λ source. source.faults };

    ghost reads = { λ source. source.reads };

    fn read(&mut self, out: &mut [u8]) -> Result<usize, IoFault> {
        self.reads = self.reads.saturating_add(1);
        match self.reader.read(out) {
            Ok(count) => Ok(count),
            Err(_) => {
                self.faults = self.faults.saturating_add(1);
                Err(IoFault)
            }
        }
    }
}
