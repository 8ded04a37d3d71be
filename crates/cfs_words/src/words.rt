//! The words of a line, one by one.

ghost use Rattle.std.specs.Prelude.{◌≡◌, ◌≤◌};
ghost use Rattle.cfs_words.specs.Parts.{words_of};
ghost use Rattle.cfs_words.specs.Reading.{Gives, Reads, word_at, key_at, number_at, path_at, mode_at, opening_at, payload_at, whence_at, slot_at, target_at, end_of};

use crate::device::Device;
use crate::flags::{Flags, flags_in};
use crate::mode::mode_in;
use crate::number::{LARGEST_NUMBER, number_in};
use crate::parts::cut;
use crate::path::path_in;
use crate::payload::payload_in;
use crate::refusal::WordRefusal;
use crate::seek::{Seek, offset_in};
use cfs_dir::Path;
use cfs_file::Bytes;
use std::alloc::Global;
use std::marker::Model;

/// The words of a line that are left. Contracts see their list. What an `Err` leaves is open.
#[derive(Drop)]
pub struct Words<'a> {
    rest: Option<&'a [u8]>,
}

impl<'a> Model for Words<'a> {
    ghost use Rattle.std.specs.Prelude.{List, ℕ};
    ghost use Rattle.std.specs.Option.{option_copied};
    ghost use Rattle.cfs_words.specs.Reading.{words_left};

    ghost Value = { List (List ℕ) };

    ghost view = { λ w. words_left (option_copied w.rest) };
}

impl<'a> Words<'a> {
    /// All words of a line.
    pub fn of(line: &'a [u8]) -> Words<'a>
        ensures { result ≡ words_of line.now }
    {
        Words { rest: Some(line) }
    }

    /// The next word.
    pub fn word(&mut self) -> Result<&'a [u8], WordRefusal>
        ensures { Reads (λ w. w.now) result self.new (word_at self.old) }
    {
        let Some(rest) = self.rest else {
            return Err(WordRefusal::Outside);
        };
        let (word, rest) = cut(rest, b' ');
        self.rest = rest;
        Ok(word)
    }

    /// A word that is the text.
    #[tactic(auto, unfolding(crate::specs::Reading::key_at))]
    pub fn key(&mut self, text: &[u8]) -> Result<(), WordRefusal>
        ensures { Reads (λ _. tt) result self.new (key_at text.now self.old) }
    {
        let word = self.word()?;
        if word == text {
            Ok(())
        } else {
            Err(WordRefusal::Outside)
        }
    }

    /// A number within the bounds.
    #[tactic(auto, unfolding(crate::specs::Reading::number_at))]
    pub fn number(&mut self, least: u64, most: u64) -> Result<u64, WordRefusal>
        ensures { Reads (λ n. n) result self.new (number_at least most self.old) }
    {
        let word = self.word()?;
        number_in(word, least, most).ok_or(WordRefusal::Outside)
    }

    /// Any number.
    #[tactic(auto, unfolding(crate::specs::Reading::number_at))]
    pub fn any_number(&mut self) -> Result<u64, WordRefusal>
        ensures { Reads (λ n. n) result self.new (number_at 0 LARGEST_NUMBER self.old) }
    {
        self.number(0, LARGEST_NUMBER)
    }

    /// Any number, in 32 bits.
    #[tactic(auto, unfolding(crate::specs::Reading::number_at))]
    pub fn short_number(&mut self) -> Result<u32, WordRefusal>
        ensures { Reads (λ n. n) result self.new (number_at 0 LARGEST_NUMBER self.old) }
    {
        let word = self.word()?;
        let number = number_in(word, 0, LARGEST_NUMBER).ok_or(WordRefusal::Outside)?;
        Ok(number as u32)
    }

    /// A path.
    #[tactic(auto, unfolding(crate::specs::Reading::path_at))]
    pub fn path(&mut self, alloc: Global) -> Result<Path, WordRefusal>
        ensures { Reads (λ path. path) result self.new (path_at self.old) }
    {
        let word = self.word()?;
        path_in(alloc, word)
    }

    /// Flags, and the mode, which stands exactly where a file may be made; otherwise it is 0.
    #[tactic(auto, unfolding(crate::specs::Reading::opening_at))]
    pub fn opening(&mut self) -> Result<(Flags, u16), WordRefusal>
        ensures { Reads (λ opening. opening) result self.new (opening_at self.old) }
    {
        let word = self.word()?;
        let flags = flags_in(word).ok_or(WordRefusal::Outside)?;
        if !flags.create {
            return Ok((flags, 0));
        }
        let mode = self.mode()?;
        Ok((flags, mode))
    }

    /// A mode.
    #[tactic(auto, unfolding(crate::specs::Reading::mode_at))]
    pub fn mode(&mut self) -> Result<u16, WordRefusal>
        ensures { Reads (λ mode. mode) result self.new (mode_at self.old) }
    {
        let word = self.word()?;
        mode_in(word).ok_or(WordRefusal::Outside)
    }

    /// The bytes of a write.
    #[tactic(auto, unfolding(crate::specs::Reading::payload_at))]
    pub fn payload(&mut self, alloc: Global) -> Result<Bytes, WordRefusal>
        ensures { Reads (λ bytes. bytes) result self.new (payload_at self.old) }
    {
        let word = self.word()?;
        payload_in(alloc, word)
    }

    /// Where a seek goes.
    #[tactic(auto, unfolding(crate::specs::Reading::whence_at))]
    pub fn whence(&mut self) -> Result<Seek, WordRefusal>
        ensures { Reads (λ seek. seek) result self.new (whence_at self.old) }
    {
        let whence = self.word()?;
        if whence == b"set".as_slice() {
            let offset = self.any_number()?;
            Ok(Seek::To(offset))
        } else if whence == b"cur".as_slice() {
            let word = self.word()?;
            offset_in(word).ok_or(WordRefusal::Outside)
        } else {
            Err(WordRefusal::Outside)
        }
    }

    /// A device.
    #[tactic(auto, unfolding(crate::specs::Reading::target_at))]
    pub fn target(&mut self) -> Result<Device, WordRefusal>
        ensures { Reads (λ device. device) result self.new (target_at self.old) }
    {
        let word = self.word()?;
        if word == b"selector".as_slice() {
            Ok(Device::Selector)
        } else if word == b"table".as_slice() {
            let copy = self.number(0, 1)?;
            Ok(Device::Table(copy))
        } else if word == b"journal".as_slice() {
            let position = self.number(0, 63)?;
            Ok(Device::Journal(position))
        } else if word == b"size".as_slice() {
            let rec = self.number(0, 255)?;
            Ok(Device::Size(rec))
        } else if word == b"slot".as_slice() {
            self.slot()
        } else if word == b"block".as_slice() {
            let block = self.any_number()?;
            Ok(Device::Block(block))
        } else {
            Err(WordRefusal::Outside)
        }
    }

    /// The two numbers of a slot.
    #[tactic(auto, unfolding(crate::specs::Reading::slot_at))]
    fn slot(&mut self) -> Result<Device, WordRefusal>
        ensures { Reads (λ device. device) result self.new (slot_at self.old) }
    {
        let queue = self.any_number()?;
        let number = self.any_number()?;
        Ok(Device::Slot(queue, number))
    }

    /// Refuses where a word is left.
    pub fn end(&self) -> Result<(), WordRefusal>
        ensures { Gives (λ _. tt) result (end_of self.now) }
    {
        match self.rest {
            None => Ok(()),
            Some(_) => Err(WordRefusal::Outside),
        }
    }
}
