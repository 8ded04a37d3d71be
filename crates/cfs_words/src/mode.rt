//! Modes, in octal.

ghost use Rattle.std.specs.Prelude.{◌≡◌};
ghost use Rattle.cfs_words.specs.Reading.{mode_of};

/// The mode that the word spells: four octal digits, the first `0`.
#[tactic(auto, unfolding(crate::specs::Reading::mode_of))]
pub(crate) fn mode_in(word: &[u8]) -> Option<u16>
    ensures { result ≡ mode_of word.now }
{
    let [zero, a, b, c] = word else {
        return None;
    };
    if *zero == b'0' && is_octal(*a) && is_octal(*b) && is_octal(*c) {
        Some(u16::from(*a - b'0') * 64 + u16::from(*b - b'0') * 8 + u16::from(*c - b'0'))
    } else {
        None
    }
}

fn is_octal(b: u8) -> bool
    ensures { result ≡ Rattle.cfs_words.specs.Reading.is_octal b }
{
    matches!(b, b'0'..=b'7')
}
