//! A text that ends the program.

ghost use Rattle.std.specs.Prelude.{◌≡◌, ◌≢◌};
ghost use Rattle.cfs_pmem.specs.Faults.{Rose};
ghost use Rattle.cfs_top.specs.Outside.{IsHeeded, Says};

use crate::Status;
use cfs_io::{IoFault, Sink, write_all};

/// Writes a text that ends the program with `status`, or fails to.
pub(crate) fn say<K: Sink>(output: &mut K, text: &[u8], status: Status) -> Status
    requires { IsHeeded status }
    ensures said { Says result status text.now (K.written output.old) (K.written output.new) }
    ensures output { result ≡ Status.Output → Rose (K.faults output.old) (K.faults output.new) }
    ensures sink { result ≢ Status.Output → K.faults output.new ≡ K.faults output.old }
{
    match write_all(output, text) {
        Ok(()) => status,
        Err(IoFault) => Status::Output,
    }
}
