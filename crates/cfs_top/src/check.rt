//! All checks of an image.

ghost use Rattle.std.specs.Prelude.{◌≡◌, ◌≢◌, IfOk};
ghost use Rattle.std.specs.String.{string_bytes};
ghost use Rattle.cfs_pmem.specs.Faults.{Rose};
ghost use Rattle.cfs_top.specs.Outside.{CheckIsDue, Loads, MaySay, Writes};
ghost use Rattle.cfs_top.specs.Text.{report_text};

use crate::Status;
use crate::say::say;
use crate::stored::{load, refuse};
use cfs_file::{NoMemory, Word};
use cfs_fsck::{Report, check_image};
use cfs_io::{Shelf, Sink};
use std::alloc::Global;

/// Writes what the store of an image holds, or which check of it is the first that fails.
pub(crate) fn check<K: Sink, H: Shelf>(
    alloc: Global,
    image: &Word,
    output: &mut K,
    shelf: &mut H,
) -> Status
    ensures writes { Writes (CheckIsDue (H.files shelf.old) image.now) result
        (K.written output.old) (K.written output.new) }
    ensures leaves { Loads result
        (record {
          files = H.files shelf.old;
          loads = H.load_faults shelf.old;
          saves = H.save_faults shelf.old;
        })
        (record {
          files = H.files shelf.new;
          loads = H.load_faults shelf.new;
          saves = H.save_faults shelf.new;
        }) }
    ensures output { result ≡ Status.Output → Rose (K.faults output.old) (K.faults output.new) }
    ensures sink { result ≢ Status.Output → K.faults output.new ≡ K.faults output.old }
    ensures loads { result ≢ Status.Shelf → H.load_faults shelf.new ≡ H.load_faults shelf.old }
    ensures saves { H.save_faults shelf.new ≡ H.save_faults shelf.old }
{
    let bytes = match load(image, output, shelf) {
        Ok(bytes) => bytes,
        Err(status) => return status,
    };
    match check_image(alloc, bytes.as_slice()) {
        Ok(report) => tell(alloc, &report, output),
        Err(refusal) => refuse(alloc, refusal, output),
    }
}

/// Writes what a store holds.
fn tell<K: Sink>(alloc: Global, report: &Report, output: &mut K) -> Status
    ensures said { MaySay result Status.Done (report_text report.now)
        (K.written output.old) (K.written output.new) }
    ensures output { result ≡ Status.Output → Rose (K.faults output.old) (K.faults output.new) }
    ensures sink { result ≢ Status.Output → K.faults output.new ≡ K.faults output.old }
{
    match print_report(alloc, report) {
        Ok(text) => say(output, text.as_bytes(), Status::Done),
        Err(NoMemory) => Status::NoMemory,
    }
}

/// The line of what a store holds.
fn print_report(alloc: Global, report: &Report) -> Result<String, NoMemory>
    ensures { IfOk result (λ text. string_bytes text ≡ report_text report.now) }
{
    let Report {
        nodes,
        live,
        noop,
        blocks,
    } = *report;
    let text = format!(in alloc; "ok nodes={nodes} live={live} noop={noop} blocks={blocks}\n")?;
    Ok(text)
}
