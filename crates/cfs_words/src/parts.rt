//! Cutting bytes at a separator.

ghost use Rattle.std.specs.Prelude.{◌≡◌, ◌==◌, [], ◌∷◌, MatchOption, position};
ghost use Rattle.cfs_words.specs.Parts.{parts_of};

/// The part before the first separator, and the bytes behind it where there is one. Takes no
/// memory.
pub fn cut(bytes: &[u8], separator: u8) -> (&[u8], Option<&[u8]>)
    ensures { MatchOption result.1
        (parts_of separator bytes.now ≡ result.0.now ∷ [])
        (λ rest. parts_of separator bytes.now ≡ result.0.now ∷ parts_of separator rest.now) }
{
    match find_separator(bytes, separator) {
        Some(at) => (&bytes[..at], Some(&bytes[at + 1..])),
        None => (bytes, None),
    }
}

/// Where the first separator stands.
fn find_separator(bytes: &[u8], separator: u8) -> Option<usize>
    ensures { result ≡ position (λ b. b == separator) bytes.now }
{
    bytes.iter().position(|b| *b == separator)
}
