//! How a request is written into the words of a slot.
ghost use Rattle.std.specs.Prelude.{◌≡◌, ◌↔◌, ◌<◌, ◌≤◌, length, IsTrue, OnOk};
ghost use Rattle.byteorder.specs.Endian.{little_number};
ghost use Rattle.cfs_pmem.specs.Faults.{HasCause};
ghost use Rattle.cfs_pmem.specs.Images.{words_of, AllImages};
ghost use Rattle.cfs_pmem.specs.WordOps.{WritesWords};
ghost use Rattle.cfs_slot.specs.Operations.{payload_words, slot_ops};
ghost use Rattle.cfs_slot.specs.Staging.{IsStageable, IsLong, staged_offset, staged_kind, staged_payload, words_for};
ghost use Rattle.cfs_slot.specs.Words.{IsClosed};
ghost use Rattle.cfs_slot.specs.Writing.{HoldsFields, WritesSlot};

use crate::layout::{MARK, PAYLOAD, TRUNCATE, WRITE};
use byteorder::{ByteOrder, LittleEndian};
use cfs_file::{BLOCK_LEN, LONGEST_WRITE, Request};
use cfs_pmem::{DeviceFault, Power, Region, write_words};

/// Whether a slot can hold the request: a write or an append of 1 to 4096 bytes, or a truncate.
pub fn is_stageable(request: &Request) -> bool
    ensures { IsTrue result ↔ IsStageable request.now }
{
    match request {
        Request::Write { bytes, .. } | Request::Append { bytes } => {
            !bytes.is_empty() && bytes.len() as u64 <= BLOCK_LEN
        }
        Request::Truncate { .. } => true,
        Request::Read { .. } | Request::Sync => false,
    }
}

/// Whether the request takes more than one slot: a write or an append of 4097 to 65,536 bytes.
pub fn is_long(request: &Request) -> bool
    ensures { IsTrue result ↔ IsLong request.now }
{
    match request {
        Request::Write { bytes, .. } | Request::Append { bytes } => {
            BLOCK_LEN < bytes.len() as u64 && bytes.len() as u64 <= LONGEST_WRITE
        }
        Request::Truncate { .. } | Request::Read { .. } | Request::Sync => false,
    }
}

/// The offset that is staged of a request: an append gets its offset when it is known.
pub(crate) fn staged_offset(request: &Request) -> u64
    ensures { result ≡ staged_offset request.now }
{
    match request {
        Request::Write { offset, .. } => *offset,
        Request::Truncate { length } => *length,
        Request::Append { .. } | Request::Read { .. } | Request::Sync => 0,
    }
}

/// The kind of a request that one slot holds.
pub(crate) fn staged_kind(request: &Request) -> u64
    ensures kind { result ≡ staged_kind request.now }
    ensures few { result ≤ 2 }
{
    match request {
        Request::Write { .. } | Request::Append { .. } => WRITE,
        Request::Truncate { .. } => TRUNCATE,
        Request::Read { .. } | Request::Sync => 0,
    }
}

/// The bytes that a request writes.
#[inline]
pub fn staged_payload(request: &Request) -> &[u8]
    ensures { result.now ≡ staged_payload request.now }
{
    match request {
        Request::Write { bytes, .. } | Request::Append { bytes } => bytes.as_slice(),
        Request::Truncate { .. } | Request::Read { .. } | Request::Sync => &[],
    }
}

/// Words 2 to 5 of a slot.
#[derive(Clone, Copy)]
pub(crate) struct Fields {
    pub(crate) ino: u64,
    pub(crate) offset: u64,
    pub(crate) kind: u64,
    pub(crate) grant: u64,
}

/// The last bytes of a payload as a word, the first one lowest; zero bytes stand for those that are
/// missing.
#[inline]
fn last_word(bytes: &[u8]) -> u64
    requires some { 0 < length bytes.now }
    requires few { length bytes.now < 8 }
    ensures { result ≡ little_number 8 bytes.now }
{
    LittleEndian::read_uint(bytes, bytes.len())
}

/// Writes the payload's words: a writing step a word, up to one that fails.
#[inline(always)]
fn write_payload<R: Region, P: Power>(
    region: &mut R,
    power: &mut P,
    payload: &[u8],
) -> Result<(), DeviceFault>
    requires size { length (words_of (R.seen region.old)) ≡ 518 }
    requires few { length payload.now ≤ 4096 }
    ensures written { WritesWords R.obeys_power 6
        (payload_words (words_for (length payload.now)) payload.now) result
        (P.asked power.old) (R.seen region.old) (P.asked power.new) (R.seen region.new) }
    ensures cause { HasCause (R.faults region.old) (R.faults region.new) result }
{
    let whole = payload.len() / 8;
    for k in 0..whole as u32 {
        let word = LittleEndian::read_u64(&payload[8 * k as usize..]);
        region.write(power, PAYLOAD + k, word)?;
    }
    if 8 * whole == payload.len() {
        return Ok(());
    }
    let word = last_word(&payload[8 * whole..]);
    region.write(power, PAYLOAD + whole as u32, word)?;
    Ok(())
}

/// Writes words 1 to 5 and the payload of a slot whose gate is closed in every image, and persists
/// them.
#[inline(always)]
pub(crate) fn write_slot<R: Region, P: Power>(
    region: &mut R,
    power: &mut P,
    fields: Fields,
    payload: &[u8],
) -> Result<(), DeviceFault>
    requires size { length (words_of (R.seen region.old)) ≡ 518 }
    requires few { length payload.now ≤ 4096 }
    requires closed { AllImages (R.seen region.old) IsClosed }
    ensures holds { OnOk result
        (HoldsFields fields.ino fields.offset fields.kind fields.grant payload.now
        (words_of (R.seen region.new))) }
    ensures writes { WritesSlot R.obeys_power
        (slot_ops fields.ino fields.offset fields.kind fields.grant payload.now) result
        (P.asked power.old) (R.seen region.old) (P.asked power.new) (R.seen region.new) }
    ensures cause { HasCause (R.faults region.old) (R.faults region.new) result }
{
    let Fields {
        ino,
        offset,
        kind,
        grant,
    } = fields;
    write_words(region, power, MARK, &[0, ino, offset, kind, grant])?;
    write_payload(region, power, payload)?;
    region.persist(power)?;
    Ok(())
}
