//! A sink in memory.

ghost use Rattle.std.specs.Prelude.{◌≡◌, ◌-◌, ◌^◌, ◌<◌, ◌↔◌, [], Some, length, min, IsErr, IfOk, OnErr, Contains};
ghost use Rattle.std.specs.Io.{WritesAtMost};
ghost use Rattle.cfs_pmem.specs.Faults.{HasCause};
ghost use Rattle.cfs_io.specs.Counts.{next_count};
ghost use Rattle.cfs_io.specs.Streams.{TakesSome, WritesPiece};

use crate::call_plan::CallPlan;
use crate::{IoFault, Sink};
use std::alloc::Global;

/// A sink that keeps the bytes in memory, with writes that are to fail; writes count from 1. A
/// write that is to fail adds nothing. Every other one takes as many bytes as the piece has, up to
/// the sink's chunk. Want of memory is a fault of the sink: the write fails and adds nothing.
#[derive(Debug, Drop)]
pub struct MemSink {
    bytes: Vec<u8>,
    chunk: usize,
    calls: CallPlan,
    faults: u64,
    ghost some: { 0 < chunk },
}

impl MemSink {
    ghost use Rattle.cfs_io.specs.Memory.{sink_written, failing_writes, sink_writes, sink_chunk};

    /// A sink with no bytes, whose writes with the numbers in `failing` are to fail.
    /// Takes no memory.
    pub fn new(alloc: Global, failing: Vec<u64>) -> MemSink
        ensures written { sink_written result ≡ [] }
        ensures chunk { sink_chunk result ≡ 2 ^ 64 - 1 }
        ensures failing { failing_writes result ≡ failing.items }
        ensures writes { sink_writes result ≡ 0 }
        ensures faults { ⟦<MemSink as Sink>⟧.faults result ≡ 0 }
    {
        MemSink::in_chunks(alloc, usize::MAX, failing)
    }

    /// The same, with writes that take at most `chunk` bytes each. Takes no memory.
    pub fn in_chunks(alloc: Global, chunk: usize, failing: Vec<u64>) -> MemSink
        requires { 0 < chunk }
        ensures written { sink_written result ≡ [] }
        ensures chunk { sink_chunk result ≡ chunk }
        ensures failing { failing_writes result ≡ failing.items }
        ensures writes { sink_writes result ≡ 0 }
        ensures faults { ⟦<MemSink as Sink>⟧.faults result ≡ 0 }
    {
        MemSink {
            bytes: Vec::new(alloc),
            chunk,
            calls: CallPlan::new(failing),
            faults: 0,
        }
    }

    /// The bytes written.
    pub fn written(&self) -> &[u8]
        ensures { result.now ≡ sink_written self.now }
    {
        self.bytes.as_slice()
    }

    /// How many writes have failed.
    pub fn faults(&self) -> u64
        ensures { result ≡ ⟦<MemSink as Sink>⟧.faults self.now }
    {
        self.faults
    }
}

impl Sink for MemSink {
    ghost use Rattle.cfs_io.specs.Memory.{sink_written, failing_writes, sink_writes, sink_chunk};

    ghost written = { λ sink. Some (sink_written sink) };

    ghost faults = { λ sink. sink.faults };

    fn write(&mut self, piece: &[u8]) -> Result<usize, IoFault>
        ensures bound { WritesAtMost result piece.now }
        ensures some { TakesSome result piece.now }
        ensures bytes { WritesPiece (Some (sink_written self.old)) (Some (sink_written self.new))
            result piece.now }
        ensures cause { HasCause self.old.faults self.new.faults result }

        // Beyond the trait: which writes fail, how much the others take, and that a failed one adds
        // nothing.
        ensures fails { Contains (failing_writes self.old) (sink_writes self.new) → IsErr result }
        ensures count { IfOk result (λ n. n ≡ min (sink_chunk self.old) (length piece.now)) }
        ensures same { OnErr result (sink_written self.new ≡ sink_written self.old) }
        ensures writes { sink_writes self.new ≡ next_count (sink_writes self.old) }
        ensures failing { failing_writes self.new ≡ failing_writes self.old }
        ensures chunk { sink_chunk self.new ≡ sink_chunk self.old }
    {
        let count = self.chunk.min(piece.len());
        if self.calls.next_fails() || self.bytes.extend_from_slice(&piece[..count]).is_err() {
            self.faults = self.faults.saturating_add(1);
            return Err(IoFault);
        }
        Ok(count)
    }
}
