//! Flags, as the word after a path has them.

ghost use Rattle.std.specs.Prelude.{◌≡◌, ◌==◌, length};
ghost use Rattle.cfs_words.specs.Reading.{flags_of, letter_at};

/// How a file is opened (POSIX.1-2017, open()).
#[derive(Clone, Copy, Debug, PartialEq, Eq)]
pub struct Flags {
    /// `r`: for reading.
    pub read: bool,
    /// `w`: for writing.
    pub write: bool,
    /// `c`: it is made where it is not there (O_CREAT).
    pub create: bool,
    /// `x`: it may not be there (O_EXCL).
    pub exclusive: bool,
    /// `a`: each write goes to the end (O_APPEND).
    pub append: bool,
}

/// The flags that the word spells: `r`, `w` or `rw`, then any of `c`, `x` and `a`, in this order.
#[tactic(auto, unfolding(crate::specs::Reading::flags_of))]
pub(crate) fn flags_in(word: &[u8]) -> Option<Flags>
    ensures { result ≡ flags_of word.now }
{
    let (read, rest) = split_letter(word, b'r');
    let (write, rest) = split_letter(rest, b'w');
    let (create, rest) = split_letter(rest, b'c');
    let (exclusive, rest) = split_letter(rest, b'x');
    let (append, rest) = split_letter(rest, b'a');
    if (read || write) && rest.is_empty() {
        Some(Flags {
            read,
            write,
            create,
            exclusive,
            append,
        })
    } else {
        None
    }
}

/// Whether the bytes begin with the letter, and those behind it.
pub(crate) fn split_letter(bytes: &[u8], letter: u8) -> (bool, &[u8])
    ensures { (result.0, result.1.now) ≡ letter_at letter bytes.now }
{
    match bytes {
        [first, rest @ ..] if *first == letter => (true, rest),
        _ => (false, bytes),
    }
}
