//! Where a seek goes.

ghost use Rattle.std.specs.Prelude.{◌≡◌};
ghost use Rattle.cfs_words.specs.Reading.{offset_of};

use crate::flags::split_letter;
use crate::number::{LARGEST_NUMBER, number_in};

/// Where a seek goes, in bytes (POSIX.1-2017, lseek()).
#[derive(Clone, Copy, Debug, PartialEq, Eq)]
pub enum Seek {
    /// To this offset (SEEK_SET).
    To(u64),
    /// On from the position (SEEK_CUR).
    On(u64),
    /// Back from the position, by at least one byte (SEEK_CUR).
    Back(u64),
}

/// The offset from the position that the word spells, which a `-` turns back.
#[tactic(auto, unfolding(crate::specs::Reading::offset_of))]
pub(crate) fn offset_in(word: &[u8]) -> Option<Seek>
    ensures { result ≡ offset_of word.now }
{
    let (is_back, digits) = split_letter(word, b'-');
    let offset = number_in(digits, 0, LARGEST_NUMBER)?;
    if is_back {
        Some(back_by(offset))
    } else {
        Some(Seek::On(offset))
    }
}

fn back_by(offset: u64) -> Seek
    ensures { result ≡ Rattle.cfs_words.specs.Reading.back_by offset }
{
    if offset == 0 {
        Seek::On(0)
    } else {
        Seek::Back(offset)
    }
}
