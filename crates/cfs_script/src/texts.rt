//! The lines of a script as bytes, one by one.

ghost use Rattle.std.specs.Prelude.{◌≡◌, ◌<◌, ◌∷◌, length};
ghost use Rattle.std.specs.Iterator.{YieldsFirstRef, item_count};
ghost use Rattle.cfs_script.specs.Script.{lines_of};

use cfs_words::cut;
use std::marker::Model;

/// The lines that are left, without the byte that ends each. Contracts see their list.
#[derive(Drop)]
pub(crate) struct Texts<'a> {
    rest: &'a [u8],
}

impl<'a> Model for Texts<'a> {
    ghost use Rattle.std.specs.Prelude.{List, ℕ};
    ghost use Rattle.cfs_script.specs.Script.{lines_of};

    ghost Value = { List (List ℕ) };

    ghost view = { λ t. lines_of t.rest.now };
}

impl<'a> Texts<'a> {
    /// All lines of the bytes.
    pub(crate) fn of(bytes: &'a [u8]) -> Texts<'a>
        ensures { result ≡ lines_of bytes.now }
    {
        Texts { rest: bytes }
    }
}

impl<'a> Iterator for Texts<'a> {
    type Item = &'a [u8];

    ghost next_gives = { YieldsFirstRef (λ texts. texts) };

    ghost remaining = { item_count (λ texts. texts) };

    fn next(&mut self) -> Option<&'a [u8]> {
        if self.rest.is_empty() {
            return None;
        }
        let (text, rest) = cut_line(self.rest);
        self.rest = rest;
        Some(text)
    }
}

/// The first line, and the bytes behind it.
fn cut_line(bytes: &[u8]) -> (&[u8], &[u8])
    requires { 0 < length bytes.now }
    ensures { lines_of bytes.now ≡ result.0.now ∷ lines_of result.1.now }
{
    let (line, rest) = cut(bytes, b'\n');
    match rest {
        Some(rest) => (line, rest),
        None => (line, &[]),
    }
}
