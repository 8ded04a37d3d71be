//! An image of the shelf: loaded, or refused.

ghost use Rattle.std.specs.Prelude.{◌≡◌, ◌≢◌, IfErr, IfOk, OnOk};
ghost use Rattle.std.specs.String.{string_bytes};
ghost use Rattle.cfs_io.specs.Files.{Finds};
ghost use Rattle.cfs_pmem.specs.Faults.{Rose};
ghost use Rattle.cfs_top.specs.Outside.{LoadIsDue, Loads, MaySay, SaysWhy, Writes};
ghost use Rattle.cfs_top.specs.Text.{damaged_text};

use crate::Status;
use crate::say::say;
use cfs_file::{Bytes, NoMemory, Word};
use cfs_image::ImageRefusal;
use cfs_io::{LoadRefusal, Shelf, Sink};
use std::alloc::Global;

/// The bytes of an image; where they can't be loaded, how the call ends.
pub(crate) fn load<K: Sink, H: Shelf>(
    image: &Word,
    output: &mut K,
    shelf: &mut H,
) -> Result<Bytes, Status>
    ensures found { IfOk result (λ bytes. Finds (H.files shelf.old) image.now bytes) }
    ensures unwritten { OnOk result (K.written output.new ≡ K.written output.old) }
    ensures writes { IfErr result (λ status. Writes (LoadIsDue (H.files shelf.old) image.now)
        status (K.written output.old) (K.written output.new)) }
    ensures files { OnOk result (H.files shelf.new ≡ H.files shelf.old) }
    ensures leaves { IfErr result (λ status. Loads status
        (record {
          files = H.files shelf.old;
          loads = H.load_faults shelf.old;
          saves = H.save_faults shelf.old;
        })
        (record {
          files = H.files shelf.new;
          loads = H.load_faults shelf.new;
          saves = H.save_faults shelf.new;
        })) }
    ensures output { IfErr result (λ status.
        status ≡ Status.Output → Rose (K.faults output.old) (K.faults output.new)) }
    ensures sink { IfErr result (λ status.
        status ≢ Status.Output → K.faults output.new ≡ K.faults output.old) }
    ensures sink_kept { OnOk result (K.faults output.new ≡ K.faults output.old) }
    ensures loads { IfErr result (λ status.
        status ≢ Status.Shelf → H.load_faults shelf.new ≡ H.load_faults shelf.old) }
    ensures loads_kept { OnOk result (H.load_faults shelf.new ≡ H.load_faults shelf.old) }
    ensures saves { H.save_faults shelf.new ≡ H.save_faults shelf.old }
{
    match shelf.load(image) {
        Ok(bytes) => Ok(bytes),
        Err(LoadRefusal::Absent) => Err(say(output, b"absent\n", Status::Absent)),
        Err(LoadRefusal::Failed) => Err(Status::Shelf),
        Err(LoadRefusal::NoMemory) => Err(Status::NoMemory),
    }
}

/// Writes why an image is refused.
pub(crate) fn refuse<K: Sink>(alloc: Global, refusal: ImageRefusal, output: &mut K) -> Status
    ensures said { SaysWhy refusal result (K.written output.old) (K.written output.new) }
    ensures output { result ≡ Status.Output → Rose (K.faults output.old) (K.faults output.new) }
    ensures sink { result ≢ Status.Output → K.faults output.new ≡ K.faults output.old }
{
    match refusal {
        ImageRefusal::Damaged {
            offset,
            found,
            against,
        } => name_damage(alloc, offset, found, against, output),
        ImageRefusal::NoMemory => Status::NoMemory,
    }
}

/// Writes which damage an image has.
fn name_damage<K: Sink>(
    alloc: Global,
    offset: u64,
    found: u64,
    against: u64,
    output: &mut K,
) -> Status
    ensures said { MaySay result Status.Image
        (damaged_text record { offset = offset; found = found; against = against })
        (K.written output.old) (K.written output.new) }
    ensures output { result ≡ Status.Output → Rose (K.faults output.old) (K.faults output.new) }
    ensures sink { result ≢ Status.Output → K.faults output.new ≡ K.faults output.old }
{
    match print_damage(alloc, offset, found, against) {
        Ok(text) => say(output, text.as_bytes(), Status::Image),
        Err(NoMemory) => Status::NoMemory,
    }
}

/// The text of an image's damage.
fn print_damage(alloc: Global, offset: u64, found: u64, against: u64) -> Result<String, NoMemory>
    ensures { IfOk result (λ text. string_bytes text ≡
        damaged_text record { offset = offset; found = found; against = against }) }
{
    let text = format!(in alloc;
        "image refused: offset {offset} found {found} against {against}\n"
    )?;
    Ok(text)
}
