//! The bytes of a file in an image.

ghost use Rattle.std.specs.Prelude.{◌≡◌, ◌≢◌};
ghost use Rattle.cfs_pmem.specs.Faults.{Rose};
ghost use Rattle.cfs_top.specs.Outside.{DumpIsDue, Loads, Writes};

use crate::Status;
use crate::say::say;
use crate::stored::{load, refuse};
use cfs_dir::Path;
use cfs_dump::dump_file;
use cfs_file::Word;
use cfs_io::{Shelf, Sink};
use std::alloc::Global;

/// Writes the bytes of the file at a path of an image's tree and nothing else, or that no file is
/// there, or which check of the image is the first that fails.
pub(crate) fn dump<K: Sink, H: Shelf>(
    alloc: Global,
    image: &Word,
    path: &Path,
    output: &mut K,
    shelf: &mut H,
) -> Status
    ensures writes { Writes (DumpIsDue (H.files shelf.old) image.now path.now) result
        (K.written output.old) (K.written output.new) }
    ensures leaves { Loads result
        (record {
          files = H.files shelf.old;
          loads = H.load_faults shelf.old;
          saves = H.save_faults shelf.old;
        })
        (record {
          files = H.files shelf.new;
          loads = H.load_faults shelf.new;
          saves = H.save_faults shelf.new;
        }) }
    ensures output { result ≡ Status.Output → Rose (K.faults output.old) (K.faults output.new) }
    ensures sink { result ≢ Status.Output → K.faults output.new ≡ K.faults output.old }
    ensures loads { result ≢ Status.Shelf → H.load_faults shelf.new ≡ H.load_faults shelf.old }
    ensures saves { H.save_faults shelf.new ≡ H.save_faults shelf.old }
{
    let bytes = match load(image, output, shelf) {
        Ok(bytes) => bytes,
        Err(status) => return status,
    };
    match dump_file(alloc, bytes.as_slice(), path) {
        Ok(Some(file)) => say(output, file.as_slice(), Status::Done),
        Ok(None) => say(output, b"no file\n", Status::NoFile),
        Err(refusal) => refuse(alloc, refusal, output),
    }
}
