//! Printing words: each behind a space.

ghost use Rattle.std.specs.Prelude.{◌≡◌, ◌++◌, ◌∷◌, [], map, OnOk, ◌≤◌};
ghost use Rattle.std.specs.Fmt.{decimal};
ghost use Rattle.cfs_dir.specs.Path.{text_of};
ghost use Rattle.cfs_words.specs.Printing.{Adds};
ghost use Rattle.cfs_words.specs.Spelling.{Mode, Opening, Payload, Target, Whence, words_for};
ghost use Rattle.cfs_words.specs.Values.{letter_if};

use crate::device::Device;
use crate::flags::Flags;
use crate::seek::Seek;
use cfs_dir::Path;
use cfs_file::{Bytes, NoMemory};
use itoa::Buffer;
use std::alloc::Global;

/// Adds a word behind a space.
pub fn print_key(text: &mut Vec<u8>, word: &[u8]) -> Result<(), NoMemory>
    ensures { OnOk result (Adds text.old.items text.new.items (word.now ∷ [])) }
{
    text.push(b' ')?;
    text.extend_from_slice(word)?;
    Ok(())
}

/// Adds a number without a space, as the first word of a line.
pub fn print_first(text: &mut Vec<u8>, number: u64) -> Result<(), NoMemory>
    ensures { OnOk result (text.new.items ≡ text.old.items ++ decimal number) }
{
    let mut buffer = Buffer::new();
    text.extend_from_slice(buffer.format(number).as_bytes())?;
    Ok(())
}

/// Adds a number.
pub fn print_number(text: &mut Vec<u8>, number: u64) -> Result<(), NoMemory>
    ensures { OnOk result (Adds text.old.items text.new.items (decimal number ∷ [])) }
{
    let mut buffer = Buffer::new();
    print_key(text, buffer.format(number).as_bytes())
}

/// Adds numbers, in order.
pub fn print_numbers(text: &mut Vec<u8>, numbers: &[u64]) -> Result<(), NoMemory>
    ensures { OnOk result (Adds text.old.items text.new.items (map (λ n. decimal n) numbers.now)) }
{
    'numbers: for number in numbers {
        print_number(text, *number)?;
    }
    Ok(())
}

/// Adds a path.
pub fn print_path(text: &mut Vec<u8>, path: &Path) -> Result<(), NoMemory>
    ensures { OnOk result (Adds text.old.items text.new.items (text_of path.now ∷ [])) }
{
    let names = path.names();
    if names.is_empty() {
        return print_key(text, b"/");
    }
    text.push(b' ')?;
    'names: for name in names {
        text.push(b'/')?;
        text.extend_from_slice(name.as_bytes())?;
    }
    Ok(())
}

/// Adds flags, and the mode where a file may be made.
pub fn print_opening(text: &mut Vec<u8>, flags: Flags, mode: u16) -> Result<(), NoMemory>
    requires { mode ≤ 511 }
    ensures { OnOk result (Adds text.old.items text.new.items (words_for Opening (flags, mode))) }
{
    text.push(b' ')?;
    print_letter(text, flags.read, b'r')?;
    print_letter(text, flags.write, b'w')?;
    print_letter(text, flags.create, b'c')?;
    print_letter(text, flags.exclusive, b'x')?;
    print_letter(text, flags.append, b'a')?;
    if flags.create {
        return print_mode(text, mode);
    }
    Ok(())
}

/// Adds a letter where it is set.
fn print_letter(text: &mut Vec<u8>, is_set: bool, letter: u8) -> Result<(), NoMemory>
    ensures { OnOk result (text.new.items ≡ text.old.items ++ letter_if is_set letter) }
{
    if is_set {
        text.push(letter)?;
    }
    Ok(())
}

/// Adds a mode, in octal.
pub fn print_mode(text: &mut Vec<u8>, mode: u16) -> Result<(), NoMemory>
    requires { mode ≤ 511 }
    ensures { OnOk result (Adds text.old.items text.new.items (words_for Mode mode)) }
{
    let first = (mode / 64) as u8;
    let second = (mode / 8 % 8) as u8;
    let third = (mode % 8) as u8;
    print_key(text, &[b'0', b'0' + first, b'0' + second, b'0' + third])
}

/// Adds the bytes of a write, in hexadecimal.
pub fn print_payload(alloc: Global, text: &mut Vec<u8>, bytes: &Bytes) -> Result<(), NoMemory>
    ensures { OnOk result (Adds text.old.items text.new.items (words_for Payload bytes.now)) }
{
    let digits = hex::encode(alloc, bytes.as_slice())?;
    text.extend_from_slice(b" h:")?;
    text.extend_from_slice(digits.as_bytes())?;
    Ok(())
}

/// Adds where a seek goes.
pub fn print_whence(text: &mut Vec<u8>, seek: Seek) -> Result<(), NoMemory>
    ensures { OnOk result (Adds text.old.items text.new.items (words_for Whence seek)) }
{
    match seek {
        Seek::To(offset) => {
            print_key(text, b"set")?;
            print_number(text, offset)
        }
        Seek::On(offset) => {
            print_key(text, b"cur")?;
            print_number(text, offset)
        }
        Seek::Back(offset) => {
            print_key(text, b"cur")?;
            print_key(text, b"-")?;
            print_first(text, offset)
        }
    }
}

/// Adds a device.
pub fn print_target(text: &mut Vec<u8>, device: Device) -> Result<(), NoMemory>
    ensures { OnOk result (Adds text.old.items text.new.items (words_for Target device)) }
{
    match device {
        Device::Selector => print_key(text, b"selector"),
        Device::Table(copy) => {
            print_key(text, b"table")?;
            print_number(text, copy)
        }
        Device::Journal(position) => {
            print_key(text, b"journal")?;
            print_number(text, position)
        }
        Device::Size(rec) => {
            print_key(text, b"size")?;
            print_number(text, rec)
        }
        Device::Slot(queue, number) => {
            print_key(text, b"slot")?;
            print_number(text, queue)?;
            print_number(text, number)
        }
        Device::Block(number) => {
            print_key(text, b"block")?;
            print_number(text, number)
        }
    }
}
