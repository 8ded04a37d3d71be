//! The bytes of a write.

ghost use Rattle.std.specs.Prelude.{◌≡◌, replicate};
ghost use Rattle.std.specs.List.{list_all};
ghost use Rattle.std.specs.Option.{option_copied};
ghost use Rattle.cfs_words.specs.Parts.{parts_of};
ghost use Rattle.cfs_words.specs.Reading.{Gives, byte_of, copies_of, hex_of, is_graphic, is_lower_hex, payload_of, repeat_of, text_of_bytes};

use crate::number::number_in;
use crate::parts::cut;
use crate::refusal::WordRefusal;
use cfs_file::{Bytes, LONGEST_WRITE};
use hex::FromHexError;
use std::alloc::Global;

/// The bytes that the word spells: `t:` and the bytes themselves, `h:` and two lower case
/// hexadecimal digits a byte, or `r:N:HH`, N copies of one byte.
#[tactic(auto, unfolding(crate::specs::Reading::payload_of))]
pub(crate) fn payload_in(alloc: Global, word: &[u8]) -> Result<Bytes, WordRefusal>
    ensures { Gives (λ bytes. bytes) result (payload_of word.now) }
{
    let (mark, bytes) = word.split_at(word.len().min(2));
    if mark == b"t:".as_slice() {
        graphic_bytes(alloc, bytes)
    } else if mark == b"h:".as_slice() {
        bytes_of_hex(alloc, bytes)
    } else if mark == b"r:".as_slice() {
        copies_in(alloc, bytes)
    } else {
        Err(WordRefusal::Outside)
    }
}

/// The bytes, if each is printed and no space.
#[tactic(auto, unfolding(crate::specs::Reading::text_of_bytes))]
fn graphic_bytes(alloc: Global, bytes: &[u8]) -> Result<Bytes, WordRefusal>
    ensures { Gives (λ copy. copy) result (text_of_bytes bytes.now) }
{
    if !are_graphic(bytes) {
        return Err(WordRefusal::Outside);
    }
    Ok(Bytes::from_slice(alloc, bytes)?)
}

fn are_graphic(bytes: &[u8]) -> bool
    ensures { result ≡ list_all is_graphic bytes.now }
{
    bytes.iter().all(|b| b.is_ascii_graphic())
}

/// The bytes of lower case hexadecimal digits.
#[tactic(auto, unfolding(crate::specs::Reading::hex_of))]
fn bytes_of_hex(alloc: Global, digits: &[u8]) -> Result<Bytes, WordRefusal>
    ensures { Gives (λ bytes. bytes) result (hex_of digits.now) }
{
    if !are_lower_hex(digits) {
        return Err(WordRefusal::Outside);
    }
    match hex::decode(alloc, digits) {
        Ok(bytes) => Ok(Bytes::from_vec(bytes)),
        Err(FromHexError::OutOfMemory) => Err(WordRefusal::NoMemory),
        Err(_) => Err(WordRefusal::Outside),
    }
}

fn are_lower_hex(digits: &[u8]) -> bool
    ensures { result ≡ list_all is_lower_hex digits.now }
{
    digits
        .iter()
        .all(|b| matches!(*b, b'0'..=b'9' | b'a'..=b'f'))
}

/// The copies of one byte that `N:HH` stands for.
#[tactic(auto, unfolding(crate::specs::Reading::repeat_of, crate::specs::Reading::copies_of))]
fn copies_in(alloc: Global, bytes: &[u8]) -> Result<Bytes, WordRefusal>
    ensures { Gives (λ copies. copies) result (repeat_of bytes.now) }
{
    let (count, rest) = cut(bytes, b':');
    let rest = rest.ok_or(WordRefusal::Outside)?;
    let (digits, more) = cut(rest, b':');
    if let Some(_) = more {
        return Err(WordRefusal::Outside);
    }
    let count = number_in(count, 0, LONGEST_WRITE).ok_or(WordRefusal::Outside)?;
    let byte = byte_in(alloc, digits)?;
    let copies = vec![in alloc; byte; count as usize]?;
    Ok(Bytes::from_vec(copies))
}

/// The byte of two lower case hexadecimal digits.
#[tactic(auto, unfolding(crate::specs::Reading::byte_of))]
fn byte_in(alloc: Global, digits: &[u8]) -> Result<u8, WordRefusal>
    ensures { Gives (λ b. b) result (byte_of digits.now) }
{
    let bytes = bytes_of_hex(alloc, digits)?;
    match bytes.as_slice() {
        [byte] => Ok(*byte),
        _ => Err(WordRefusal::Outside),
    }
}
