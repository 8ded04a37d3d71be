//! The words of the command line.

ghost use Rattle.std.specs.Prelude.{◌≡◌, ◌==◌, ◌≤◌, ◌&&◌, List, ℕ, get_or, nat_le, length, IfSome};
ghost use Rattle.std.specs.Prelude.{IfNone, IfOk};
ghost use Rattle.std.specs.Fmt.{decimal};
ghost use Rattle.std.specs.List.{list_all};
ghost use Rattle.cfs_top.specs.Command.{IsCheck, IsDump, IsMkfs, IsPlay, IsUpgrade};
ghost use Rattle.cfs_top.specs.Command.{is_image_byte, is_image_name};

use cfs_dir::{Path, PathRefusal};
use cfs_file::{NoMemory, Word};
use cfs_image::{FEWEST_BLOCKS, FEWEST_QUEUES, MOST_BLOCKS, MOST_QUEUES};
use cfs_words::number_in;
use std::alloc::Global;

/// A store that is to be made.
#[derive(Clone, Copy)]
pub(crate) struct NewStore<'a> {
    /// The name of its image.
    pub(crate) image: &'a Word,
    /// How many blocks it has.
    pub(crate) blocks: u32,
    /// How many queues it has.
    pub(crate) queues: u32,
}

/// An image that is to be upgraded.
#[derive(Clone, Copy)]
pub(crate) struct Upgrade<'a> {
    /// The name of the image.
    pub(crate) image: &'a Word,
    /// The name of the new image.
    pub(crate) new: &'a Word,
}

/// A file whose bytes are to be printed.
#[derive(Drop)]
pub(crate) struct Dump<'a> {
    /// The name of the image.
    pub(crate) image: &'a Word,
    /// Where the file is in the image's tree.
    pub(crate) path: Path,
}

/// The store of `mkfs IMAGE BLOCKS QUEUES`, if the words are that command. The first word is the
/// program's name.
pub(crate) fn store_to_make(words: &[Word]) -> Option<NewStore<'_>>
    ensures found { IfSome result (λ store.
        IsMkfs words.now store.image.now store.blocks store.queues) }
    ensures none { IfNone result ((image : List ℕ) (blocks queues : ℕ) →
        IsMkfs words.now image blocks queues → ⊥) }
{
    let [_, command, image, blocks, queues] = words else {
        return None;
    };
    if !is_mkfs(command) || !is_image(image) {
        return None;
    }
    let blocks = number_of(blocks, FEWEST_BLOCKS, MOST_BLOCKS)?;
    let queues = number_of(queues, FEWEST_QUEUES, MOST_QUEUES)?;
    Some(NewStore {
        image,
        blocks,
        queues,
    })
}

/// The number that a word spells in decimal, if it is within the bounds.
fn number_of(word: &Word, least: u32, most: u32) -> Option<u32>
    ensures found { IfSome result (λ n. (word.now ≡ decimal n) × (least ≤ n) × (n ≤ most)) }
    ensures none { IfNone result ((n : ℕ) → word.now ≡ decimal n → least ≤ n → n ≤ most → ⊥) }
{
    let number = number_in(word.as_slice(), u64::from(least), u64::from(most))?;
    Some(number as u32)
}

fn is_mkfs(word: &Word) -> bool
    ensures { result ≡ Rattle.cfs_top.specs.Command.is_mkfs word.now }
{
    word.as_slice() == b"mkfs".as_slice()
}

/// The images of `upgrade IMAGE NEW`, if the words are that command. The first word is the
/// program's name.
pub(crate) fn image_to_upgrade(words: &[Word]) -> Option<Upgrade<'_>>
    ensures found { IfSome result (λ upgrade.
        IsUpgrade words.now upgrade.image.now upgrade.new.now) }
    ensures none { IfNone result ((image new : List ℕ) → IsUpgrade words.now image new → ⊥) }
{
    let [_, command, image, new] = words else {
        return None;
    };
    if !is_upgrade(command) || !is_image(image) || !is_image(new) || *new == *image {
        return None;
    }
    Some(Upgrade { image, new })
}

fn is_upgrade(word: &Word) -> bool
    ensures { result ≡ Rattle.cfs_top.specs.Command.is_upgrade word.now }
{
    word.as_slice() == b"upgrade".as_slice()
}

/// The image of `play IMAGE`, if the words are that command. The first word is the program's name.
pub(crate) fn image_to_play(words: &[Word]) -> Option<&Word>
    ensures found { IfSome result (λ image. IsPlay words.now image.now) }
    ensures none { IfNone result ((image : List ℕ) → IsPlay words.now image → ⊥) }
{
    match words {
        [_, command, image] if is_play(command) && is_image(image) => Some(image),
        _ => None,
    }
}

/// The image of `check IMAGE`, if the words are that command. The first word is the program's name.
pub(crate) fn image_to_check(words: &[Word]) -> Option<&Word>
    ensures found { IfSome result (λ image. IsCheck words.now image.now) }
    ensures none { IfNone result ((image : List ℕ) → IsCheck words.now image → ⊥) }
{
    match words {
        [_, command, image] if is_check(command) && is_image(image) => Some(image),
        _ => None,
    }
}

fn is_check(word: &Word) -> bool
    ensures { result ≡ Rattle.cfs_top.specs.Command.is_check word.now }
{
    word.as_slice() == b"check".as_slice()
}

/// The file of `dump IMAGE PATH`, if the words are that command. The first word is the program's
/// name. Takes memory for the path.
pub(crate) fn file_to_dump(alloc: Global, words: &[Word]) -> Result<Option<Dump<'_>>, NoMemory>
    ensures found { IfOk result (λ file.
        IfSome file (λ dump. IsDump words.now dump.image.now dump.path)) }
    ensures none { IfOk result (λ file. IfNone file
        ((image : List ℕ) (path : List (List ℕ)) → IsDump words.now image path → ⊥)) }
{
    let [_, command, image, path] = words else {
        return Ok(None);
    };
    if !is_dump(command) || !is_image(image) {
        return Ok(None);
    }
    match Path::parse(alloc, path.as_slice()) {
        Ok(path) => Ok(Some(Dump { image, path })),
        Err(PathRefusal::Malformed) => Ok(None),
        Err(PathRefusal::NoMemory) => Err(NoMemory),
    }
}

fn is_dump(word: &Word) -> bool
    ensures { result ≡ Rattle.cfs_top.specs.Command.is_dump word.now }
{
    word.as_slice() == b"dump".as_slice()
}

fn is_play(word: &Word) -> bool
    ensures { result ≡ Rattle.cfs_top.specs.Command.is_play word.now }
{
    word.as_slice() == b"play".as_slice()
}

fn is_image(word: &Word) -> bool
    ensures { result ≡ is_image_name word.now }
{
    let name = word.as_slice();
    1 <= name.len() && name.len() <= 200 && are_image_bytes(name) && !is_option(name)
}

fn is_option(name: &[u8]) -> bool
    ensures { result ≡ (get_or name.now 0 0 == 45) }
{
    matches!(name, [b'-', ..])
}

fn are_image_bytes(name: &[u8]) -> bool
    ensures { result ≡ list_all is_image_byte name.now }
{
    name.iter().all(|b| is_byte_of_image(*b))
}

fn is_byte_of_image(b: u8) -> bool
    ensures { result ≡ is_image_byte b }
{
    b.is_ascii_alphanumeric() || b == b'.' || b == b'_' || b == b'-' || b == b'/'
}
