//! An image of version 1 as one of the present version.
ghost use Rattle.std.specs.Prelude.{◌≡◌, ◌≤◌, ◌++◌, length, IfOk, IfErr, OnOk};
ghost use Rattle.cfs_image.specs.declared.version.Version.TheVariants.{First};
ghost use Rattle.cfs_image.specs.Checks.{IsSound};
ghost use Rattle.cfs_image.specs.Versions.{journal_at_in};
ghost use Rattle.cfs_move.specs.Moved.{IsMoved};
ghost use Rattle.cfs_move.specs.Refusals.{IsOldSound, NamesOldDamage};
ghost use Rattle.cfs_move.specs.Upgraded.{records_moved, upgraded};

use cfs_file::{Bytes, NoMemory};
use cfs_image::{ImageRefusal, VERSION, Version, check_header, image_len};
use std::alloc::Global;

/// How many records a journal has.
const JOURNAL_RECORDS: usize = 64;

/// Where the journal begins in an image of either version, in bytes.
const JOURNAL_AT: usize = 49_208;

/// How many bytes a journal record of version 1 has.
const OLD_RECORD_LEN: usize = 120;

/// The image of the present version that an image of version 1 becomes, in one pass over its bytes:
/// the version is another one, each journal record has a word 0 behind its words, and nothing else
/// changes (own).
///
/// `Damaged` names the first check of version 1 that fails, of the length and the header, and comes
/// exactly where one does: want of memory is answered for sound images alone (own).
pub fn upgrade_bytes(alloc: Global, bytes: &[u8]) -> Result<Bytes, ImageRefusal>
    ensures upgraded { IfOk result (λ image. image ≡ upgraded bytes.now) }
    ensures old_sound { OnOk result (IsOldSound bytes.now) }
    // So it is an image of a store, which holds what the old one held.
    ensures sound { IfOk result (λ image. IsSound image) }
    ensures moved { IfOk result (λ image. IsMoved bytes.now image) }
    ensures err { IfErr result (NamesOldDamage bytes.now) }
{
    let size = check_header(bytes, Version::First)?;
    let mut image = Vec::with_capacity(alloc, image_len(size.blocks, size.queues))?;
    image.extend_from_slice(&bytes[..8])?;
    image.extend_from_slice(&VERSION.to_le_bytes())?;
    image.extend_from_slice(&bytes[16..old_record_at(0)])?;
    push_records(&mut image, bytes)?;
    image.extend_from_slice(&bytes[old_record_at(JOURNAL_RECORDS)..])?;
    Ok(Bytes::from_vec(image))
}

/// Writes the journal records of an image of version 1 behind the bytes that are there, each with
/// a word 0 behind it.
fn push_records(image: &mut Vec<u8>, old: &[u8]) -> Result<(), NoMemory>
    requires { journal_at_in First JOURNAL_RECORDS ≤ length old.now }
    ensures { OnOk result
        (image.new.items ≡ image.old.items ++ records_moved old.now JOURNAL_RECORDS) }
{
    for position in 0..JOURNAL_RECORDS {
        let from = old_record_at(position);
        image.extend_from_slice(&old[from..from + OLD_RECORD_LEN])?;
        image.extend_from_slice(&[0; 8])?;
    }
    Ok(())
}

/// Where the journal record at a position begins in an image of version 1.
fn old_record_at(position: usize) -> usize
    requires { position ≤ JOURNAL_RECORDS }
    ensures { result ≡ journal_at_in First position }
{
    JOURNAL_AT + OLD_RECORD_LEN * position
}
