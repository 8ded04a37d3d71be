//! The words of a name.
ghost use Rattle.std.specs.Prelude.{◌≡◌, ◌<◌, ◌^◌, [], ◌∷◌, IfOk, OnOk, take};
ghost use Rattle.std.proofs.Math.ListN.{get_or};
ghost use Rattle.cfs_image.specs.Checks.{damage_of};
ghost use Rattle.cfs_survey.specs.Faults.{reported};
ghost use Rattle.cfs_dir.specs.Name.{is_dots, is_name_byte, IsNodeName};
ghost use Rattle.cfs_survey.specs.Fields.{byte_check, byte_checks, fits, name_checks, name_room};

use crate::fault::{Fault, ensure};
use byteorder::{ByteOrder, LittleEndian};
use cfs_dir::{LONGEST_NAME, NODE_WORDS, Name};

/// The bytes that a node's words have room for in its name.
pub(crate) fn name_room(words: &[u64; NODE_WORDS]) -> [u8; LONGEST_NAME]
    ensures { result ≡ name_room words.now }
{
    let mut room = [0; LONGEST_NAME];
    LittleEndian::write_u64_into(&words[7..], &mut room);
    room
}

/// Whether a byte may stand in a name.
fn is_name_byte(byte: u8) -> bool
    ensures { result ≡ is_name_byte byte }
{
    byte.is_ascii_alphanumeric() || matches!(byte, b'.' | b'_' | b'-')
}

/// Whether the byte at an index may stand in the room of a name of this length.
fn fits(byte: u8, k: usize, len: u64) -> bool
    ensures { result ≡ fits byte k len }
{
    if (k as u64) < len {
        is_name_byte(byte)
    } else {
        byte == 0
    }
}

/// Checks the byte at an index of the room of a name of this length. The node's words stand at this
/// offset.
fn check_byte(at: u64, len: u64, room: &[u8; LONGEST_NAME], k: usize) -> Result<(), Fault>
    requires low { at < 2 ^ 48 }
    requires within { k < LONGEST_NAME }
    ensures { reported result ≡ damage_of (byte_check at len room.now k ∷ []) }
{
    let byte = room[k];
    ensure(fits(byte, k, len), at + 56 + k as u64, u64::from(byte), 0)
}

/// Checks each byte of that room.
#[tactic(auto, using(crate::proofs::FirstFaults::first_faults))]
fn check_bytes(at: u64, len: u64, room: &[u8; LONGEST_NAME]) -> Result<(), Fault>
    requires { at < 2 ^ 48 }
    ensures { reported result ≡ damage_of (byte_checks at len room.now) }
{
    for k in 0..LONGEST_NAME {
        check_byte(at, len, room, k)?;
    }
    Ok(())
}

/// Whether this name is `.` or `..`.
fn is_dots(name: &[u8]) -> bool
    ensures { result ≡ is_dots name.now }
{
    name == b".".as_slice() || name == b"..".as_slice()
}

/// Checks the name of so many bytes. The node's words stand at this offset.
#[tactic(auto, using(crate::proofs::FirstFaults::first_faults))]
fn check_name(at: u64, len: u64, room: &[u8; LONGEST_NAME]) -> Result<(), Fault>
    requires { at < 2 ^ 48 }
    ensures named { reported result ≡ damage_of (name_checks at len room.now) }
    ensures name { OnOk result (IsNodeName (take len room.now)) }
{
    ensure(1 <= len, at + 48, len, 1)?;
    ensure(
        len <= LONGEST_NAME as u64,
        at + 48,
        len,
        LONGEST_NAME as u64,
    )?;
    check_bytes(at, len, room)?;
    ensure(!is_dots(&room[..len as usize]), at + 48, len, 0)
}

/// The name of the node whose words stand at this offset.
pub(crate) fn read_name(at: u64, words: &[u64; NODE_WORDS]) -> Result<Name, Fault>
    requires { at < 2 ^ 48 }
    ensures named { reported result ≡
        damage_of (name_checks at (get_or words.now 6 0) (name_room words.now)) }
    ensures name { IfOk result (λ name.
        name ≡ take (get_or words.now 6 0) (name_room words.now)) }
{
    let len = words[6];
    let room = name_room(words);
    check_name(at, len, &room)?;
    Ok(Name::parse(&room[..len as usize]).unwrap())
}
