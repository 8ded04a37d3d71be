//! The line that sums up how a workload was answered.

ghost use Rattle.std.specs.Prelude.{◌≡◌, ◌+◌, ◌^◌, ◌<◌, ◌++◌, ◌∷◌, [], ℕ, List, Bool, IfOk, OnOk};
ghost use Rattle.std.specs.Prelude.{nat_le};
ghost use Rattle.std.specs.Fmt.{decimal};
ghost use Rattle.cfs_script.specs.declared.form.Form.{Form};
ghost use Rattle.cfs_gen.specs.Summary.{counted, summary_of, summary_text};

use crate::kind::Kind;
use cfs_file::{Bytes, NoMemory};
use cfs_script::Form;
use cfs_words::print_first;
use std::alloc::Global;
use std::marker::Model;

/// How the requests of a workload were answered, in counts. Contracts see them as totals.
#[derive(Debug, Drop)]
pub struct Summary {
    number: u64,
    requests: u64,
    writes: u64,
    reads: u64,
    syncs: u64,
    ok: u64,
}

impl Model for Summary {
    ghost use Rattle.std.specs.Prelude.{◌≡◌, ◌+◌, ◌≤◌};
    ghost use Rattle.cfs_gen.specs.Totals.{Totals};

    ghost Value = { Totals };

    ghost view = { λ s. record {
      number = s.number;
      requests = s.requests;
      writes = s.writes;
      reads = s.reads;
      syncs = s.syncs;
      ok = s.ok;
    } };

    ghost invariant = { λ s. (s.writes + s.reads + s.syncs ≡ s.requests) × (s.ok ≤ s.requests) };
}

impl Summary {
    /// The summary of the workload of a number before its first line.
    pub fn new(number: u64) -> Summary
        ensures { result ≡ summary_of number [] }
    {
        Summary {
            number,
            requests: 0,
            writes: 0,
            reads: 0,
            syncs: 0,
            ok: 0,
        }
    }

    /// Whether there is no room for another request.
    pub fn is_full(&self) -> bool
        ensures { result ≡ nat_le (2 ^ 64) (self.now.requests + 1) }
    {
        self.requests == u64::MAX
    }

    /// Counts a line, and whether it was answered ok. A line that is no request is not counted.
    pub fn add(&mut self, form: &Form, is_ok: bool)
        requires { self.old.requests + 1 < 2 ^ 64 }
        ensures counted { self.new ≡ counted self.old form.now is_ok }
        ensures more { (number : ℕ) (lines : List (Form × Bool)) →
            self.old ≡ summary_of number lines →
            self.new ≡ summary_of number (lines ++ (form.now, is_ok) ∷ []) }
    {
        let Some(kind) = Kind::of(form) else {
            return;
        };
        match kind {
            Kind::Write => self.writes += 1,
            Kind::Read => self.reads += 1,
            Kind::Sync => self.syncs += 1,
        }
        self.requests += 1;
        if is_ok {
            self.ok += 1;
        }
    }
}

/// The text of a summary, a line ended by its byte 10 (own).
pub fn print_summary(alloc: Global, summary: &Summary) -> Result<Bytes, NoMemory>
    ensures { IfOk result (λ text. text ≡ summary_text summary.now) }
{
    let mut text = Vec::new(alloc);
    print_count(&mut text, b"gen number=", summary.number)?;
    print_count(&mut text, b" requests=", summary.requests)?;
    print_count(&mut text, b" writes=", summary.writes)?;
    print_count(&mut text, b" reads=", summary.reads)?;
    print_count(&mut text, b" syncs=", summary.syncs)?;
    print_count(&mut text, b" ok=", summary.ok)?;
    text.push(b'\n')?;
    Ok(Bytes::from_vec(text))
}

/// Adds a name and a number.
fn print_count(text: &mut Vec<u8>, name: &[u8], count: u64) -> Result<(), NoMemory>
    ensures { OnOk result (text.new.items ≡ text.old.items ++ (name.now ++ decimal count)) }
{
    text.extend_from_slice(name)?;
    print_first(text, count)
}
