//! Numbers of a script and of a command line.

ghost use Rattle.std.specs.Prelude.{◌≡◌, ◌≤◌, ℕ, if◌then◌else◌, nat_le, Some, None, true, IfSome, IfNone};
ghost use Rattle.std.specs.List.{list_all};
ghost use Rattle.std.specs.Char.{is_ascii_digit};
ghost use Rattle.std.specs.Fmt.{decimal};
ghost use Rattle.std.specs.Str.Parse.{digits_value};
ghost use Rattle.cfs_words.specs.Reading.{is_canonical, number_of};

/// The largest number that a word may spell (own).
pub const LARGEST_NUMBER: u64 = 4_294_967_295;

/// The number that the word spells in decimal, without a leading zero, if it is within the bounds.
/// There is none above [`LARGEST_NUMBER`]. Takes no memory.
#[tactic(auto, unfolding(crate::specs::Reading::number_of))]
pub fn number_in(word: &[u8], least: u64, most: u64) -> Option<u64>
    ensures exact { result ≡ number_of least most word.now }
    ensures found { IfSome result (λ n. (word.now ≡ decimal n) × (least ≤ n) × (n ≤ most)) }
    ensures none { IfNone result ((n : ℕ) → word.now ≡ decimal n → least ≤ n → n ≤ most →
        n ≤ LARGEST_NUMBER → ⊥) }
{
    read_number(word, least, most)
}

#[tactic(auto, unfolding(crate::specs::Reading::number_of))]
fn read_number(word: &[u8], least: u64, most: u64) -> Option<u64>
    ensures { result ≡ number_of least most word.now }
{
    if !test_canonical(word) {
        return None;
    }
    let value = value_in(word)?;
    if least <= value && value <= most {
        Some(value)
    } else {
        None
    }
}

/// Whether the word is decimal digits without a leading zero.
fn test_canonical(word: &[u8]) -> bool
    ensures { result ≡ is_canonical word.now }
{
    match word {
        [] => false,
        [first, rest @ ..] => are_digits(word) && (*first != b'0' || rest.is_empty()),
    }
}

fn are_digits(word: &[u8]) -> bool
    ensures { result ≡ list_all is_ascii_digit word.now }
{
    word.iter().all(|b| b.is_ascii_digit())
}

/// The value of digits, up to the largest number.
fn value_in(digits: &[u8]) -> Option<u64>
    requires { list_all is_ascii_digit digits.now ≡ true }
    ensures { result ≡
        (if nat_le (digits_value 10 digits.now) LARGEST_NUMBER
        then Some (digits_value 10 digits.now) else None) }
{
    let mut value = 0;
    for digit in digits {
        value = value * 10 + u64::from(*digit - b'0');
        if value > LARGEST_NUMBER {
            return None;
        }
    }
    Some(value)
}
