//! What an image of version 1 becomes, saved under another name.

ghost use Rattle.std.specs.Prelude.{◌≡◌, ◌≢◌, IfErr, IfOk, None, OnOk};
ghost use Rattle.cfs_image.specs.Checks.{damage_of};
ghost use Rattle.cfs_move.specs.Upgraded.{upgraded};
ghost use Rattle.cfs_pmem.specs.Faults.{Rose};
ghost use Rattle.cfs_top.specs.Outside.{Names, UpgradeIsDue, Upgrades, Writes};
ghost use Rattle.cfs_top.specs.Outside.{upgrade_checks};

use crate::Status;
use crate::stored::{load, refuse};
use cfs_file::{Bytes, Word};
use cfs_fsck::check_image;
use cfs_image::ImageRefusal;
use cfs_io::{IoFault, Shelf, Sink};
use cfs_move::upgrade_bytes;
use std::alloc::Global;

/// Saves under `new` what the image of version 1 becomes, or writes what is wrong with it.
pub(crate) fn upgrade<K: Sink, H: Shelf>(
    alloc: Global,
    image: &Word,
    new: &Word,
    output: &mut K,
    shelf: &mut H,
) -> Status
    ensures writes { Writes (UpgradeIsDue (H.files shelf.old) image.now) result
        (K.written output.old) (K.written output.new) }
    ensures upgrades { Upgrades result image.now new.now
        (record {
          files = H.files shelf.old;
          loads = H.load_faults shelf.old;
          saves = H.save_faults shelf.old;
        })
        (record {
          files = H.files shelf.new;
          loads = H.load_faults shelf.new;
          saves = H.save_faults shelf.new;
        }) }
    ensures output { result ≡ Status.Output → Rose (K.faults output.old) (K.faults output.new) }
    ensures sink { result ≢ Status.Output → K.faults output.new ≡ K.faults output.old }
    ensures loads { result ≢ Status.Shelf → H.load_faults shelf.new ≡ H.load_faults shelf.old }
    ensures saves { result ≢ Status.Shelf → H.save_faults shelf.new ≡ H.save_faults shelf.old }
{
    let bytes = match load(image, output, shelf) {
        Ok(bytes) => bytes,
        Err(status) => return status,
    };
    let upgraded = match upgrade_soundly(alloc, bytes.as_slice()) {
        Ok(upgraded) => upgraded,
        Err(refusal) => return refuse(alloc, refusal, output),
    };
    match shelf.save(new, upgraded.as_slice()) {
        Ok(()) => Status::Done,
        Err(IoFault) => Status::Shelf,
    }
}

/// What an image of version 1 becomes, where that passes all checks.
fn upgrade_soundly(alloc: Global, bytes: &[u8]) -> Result<Bytes, ImageRefusal>
    ensures image { IfOk result (λ image. image ≡ upgraded bytes.now) }
    ensures sound { OnOk result (damage_of (upgrade_checks bytes.now) ≡ None) }
    ensures named { IfErr result (Names (upgrade_checks bytes.now)) }
{
    let image = upgrade_bytes(alloc, bytes)?;
    check_image(alloc, image.as_slice())?;
    Ok(image)
}
