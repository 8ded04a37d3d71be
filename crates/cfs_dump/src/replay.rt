//! A file is taken through its live entries.
ghost use Rattle.std.specs.Prelude.{◌≡◌, ◌*◌, ◌<◌, All, OnOk};
ghost use Rattle.std.specs.List.{filter_map};
ghost use Rattle.cfs_dump.specs.Reads.{HasSlots, heads_in, request_in};
ghost use Rattle.cfs_image.specs.Image.{word_at};
ghost use Rattle.cfs_medium.specs.Store.{taken_through};

use crate::payload::request_at;
use cfs_file::{Bytes, NoMemory, apply};
use cfs_survey::{HEAD_WORDS, LiveEntry};
use std::alloc::Global;

/// Takes a file through those of these entries that are its own, in their order. The heads are the
/// words before the payload of every slot.
pub(crate) fn take_through(
    alloc: Global,
    bytes: &[u8],
    heads: &[[u64; HEAD_WORDS]],
    ino: u64,
    entries: &[LiveEntry],
    file: &mut Bytes,
) -> Result<(), NoMemory>
    requires image { HasSlots bytes.now }
    requires heads { heads.now ≡ heads_in bytes.now }
    requires slots { All (λ entry. entry.slot < 16 * word_at bytes.now 24) entries.now }
    ensures { OnOk result (file.new ≡
        taken_through file.old (filter_map (request_in bytes.now ino) entries.now)) }
{
    for entry in entries {
        if entry.ino == ino {
            let request = request_at(alloc, bytes, heads, entry.slot)?;
            apply(file, &request)?;
        }
    }
    Ok(())
}
