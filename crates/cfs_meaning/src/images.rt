//! The image that a script is played on, and the one that is left.

ghost use Rattle.std.specs.Prelude.{◌≡◌, [], List, IfErr, IfOk};
ghost use Rattle.cfs_pmem.specs.declared.trace.Asked.{Asked};
ghost use Rattle.cfs_image.specs.Image.{contents_in, image_of, words_in};
ghost use Rattle.cfs_image.specs.Checks.{NamesDamage};
ghost use Rattle.cfs_meaning.specs.Real.{drive_of};
ghost use Rattle.cfs_meaning.specs.Scripts.{loaded, saved};

use cfs_block::MemBlock;
use cfs_file::{Bytes, NoMemory};
use cfs_image::{ImageRefusal, Medium, read_image, write_image};
use cfs_pmem::MemRegion;
use std::alloc::Global;

/// The devices of an image, as a script is begun on them.
pub fn load(alloc: Global, bytes: &[u8]) -> Result<Medium<MemRegion, MemBlock>, ImageRefusal>
    ensures image { IfOk result
        (λ medium. image_of (words_in medium.regions.items) (contents_in medium.blocks.items) ≡
        bytes.now) }
    ensures loaded { IfOk result
        (λ medium. drive_of [] medium.regions.items medium.blocks.items ≡
        loaded (words_in medium.regions.items) (contents_in medium.blocks.items)) }
    ensures err { IfErr result (NamesDamage bytes.now) }
{
    read_image(alloc, bytes)
}

/// The image of what the devices hold, as a script leaves it.
pub fn save(alloc: Global, medium: &Medium<MemRegion, MemBlock>) -> Result<Bytes, NoMemory>
    ensures { IfOk result (λ image. (asked : List Asked) →
        image ≡ saved (drive_of asked medium.now.regions.items medium.now.blocks.items)) }
{
    write_image(alloc, medium)
}
