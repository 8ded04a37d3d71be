//! A source in memory.

ghost use Rattle.std.specs.Prelude.{◌≡◌, ◌-◌, ◌^◌, ◌<◌, ◌≤◌, ◌↔◌, ◌++◌, Some, length, take, drop, min, IsErr, IfOk, OnErr, Contains};
ghost use Rattle.std.specs.Io.{ReadsAtMost};
ghost use Rattle.std.specs.Io.KnownBytes.{ReadConsumes};
ghost use Rattle.cfs_pmem.specs.Faults.{HasCause};
ghost use Rattle.cfs_io.specs.Counts.{next_count};

use crate::call_plan::CallPlan;
use crate::{IoFault, Source};

/// A source over bytes in memory, with reads that are to fail; reads count from 1. A read that is
/// to fail gives nothing and takes nothing. Every other one gives as many bytes as there is room
/// for, up to the source's chunk.
#[derive(Debug, Drop)]
pub struct MemSource {
    bytes: Vec<u8>,
    at: usize,
    chunk: usize,
    calls: CallPlan,
    faults: u64,
    ghost within: { at ≤ length bytes.items },
    ghost some: { 0 < chunk },
}

impl MemSource {
    ghost use Rattle.cfs_io.specs.Memory.{source_left, source_reads, failing_reads, source_chunk};

    /// A source with all of `bytes` left, whose reads with the numbers in `failing` are to fail.
    /// Takes no memory.
    pub fn new(bytes: Vec<u8>, failing: Vec<u64>) -> MemSource
        ensures left { source_left result ≡ bytes.items }
        ensures chunk { source_chunk result ≡ 2 ^ 64 - 1 }
        ensures failing { failing_reads result ≡ failing.items }
        ensures reads { source_reads result ≡ 0 }
        ensures faults { ⟦<MemSource as Source>⟧.faults result ≡ 0 }
    {
        MemSource::in_chunks(bytes, usize::MAX, failing)
    }

    /// The same, with reads that give at most `chunk` bytes each. Takes no memory.
    pub fn in_chunks(bytes: Vec<u8>, chunk: usize, failing: Vec<u64>) -> MemSource
        requires { 0 < chunk }
        ensures left { source_left result ≡ bytes.items }
        ensures chunk { source_chunk result ≡ chunk }
        ensures failing { failing_reads result ≡ failing.items }
        ensures reads { source_reads result ≡ 0 }
        ensures faults { ⟦<MemSource as Source>⟧.faults result ≡ 0 }
    {
        MemSource {
            bytes,
            at: 0,
            chunk,
            calls: CallPlan::new(failing),
            faults: 0,
        }
    }

    /// The bytes left.
    pub fn left(&self) -> &[u8]
        ensures { result.now ≡ source_left self.now }
    {
        &self.bytes[self.at..]
    }

    /// How many reads have failed.
    pub fn faults(&self) -> u64
        ensures { result ≡ ⟦<MemSource as Source>⟧.faults self.now }
    {
        self.faults
    }
}

impl Source for MemSource {
    ghost use Rattle.cfs_io.specs.Memory.{source_left, source_reads, failing_reads, source_chunk};

    ghost left = { λ source. Some (source_left source) };

    ghost faults = { λ source. source.faults };

    ghost reads = { λ source. source_reads source };

    fn read(&mut self, out: &mut [u8]) -> Result<usize, IoFault>
        ensures bound { ReadsAtMost result out.new }
        ensures bytes { ReadConsumes (Some (source_left self.old)) (Some (source_left self.new))
            result out.new }
        ensures cause { HasCause self.old.faults self.new.faults result }
        ensures counted { source_reads self.new ≡ next_count (source_reads self.old) }

        // Beyond the trait: which reads fail, and how much the others give.
        ensures fails { IsErr result ↔
            Contains (failing_reads self.old) (source_reads self.new) }
        ensures count { IfOk result (λ n.
            n ≡ min (source_chunk self.old)
            (min (length (source_left self.old)) (length out.old))) }
        ensures failing { failing_reads self.new ≡ failing_reads self.old }
        ensures chunk { source_chunk self.new ≡ source_chunk self.old }
    {
        if self.calls.next_fails() {
            self.faults = self.faults.saturating_add(1);
            return Err(IoFault);
        }
        let count = copy_front(&self.bytes[self.at..], self.chunk, out);
        self.at += count;
        Ok(count)
    }
}

/// Copies as many bytes as both have, at most `limit`, to the front of `to`, and says how many.
fn copy_front(from: &[u8], limit: usize, to: &mut [u8]) -> usize
    ensures count { result ≡ min limit (min (length from.now) (length to.old)) }
    ensures copied { take result to.new ≡ take result from.now }
{
    let count = limit.min(from.len().min(to.len()));
    to[..count].copy_from_slice(&from[..count]);
    count
}
