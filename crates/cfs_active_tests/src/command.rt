//! A command of a case.

/// A word, the numbers behind it, and the last byte of its line.
#[derive(Clone, Copy)]
pub(crate) struct Command<'a> {
    pub(crate) word: &'a str,
    pub(crate) first: u64,
    pub(crate) second: u64,
    pub(crate) fill: u8,
}

/// The number that a word spells, 0 where it spells none.
fn number(word: Option<&str>) -> u64 {
    match word {
        Some(digits) => digits.parse::<u64>().unwrap_or(0),
        None => 0,
    }
}

/// The command of a line.
pub(crate) fn command_of(line: &str) -> Command<'_> {
    let mut words = line.split(' ');
    let word = words.next().unwrap_or("");
    let first = number(words.next());
    let second = number(words.next());
    Command {
        word,
        first,
        second,
        fill: line.as_bytes().last().copied().unwrap_or(0),
    }
}
