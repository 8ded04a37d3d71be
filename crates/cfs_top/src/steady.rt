//! The top call without threads.

ghost use Rattle.std.specs.Prelude.{◌≡◌, ◌≢◌, ◌≤◌, List, ℕ};
ghost use Rattle.std.specs.declared.option.Option.{Option};
ghost use Rattle.cfs_image.specs.declared.layout.TheConstants.{FEWEST_BLOCKS, FEWEST_QUEUES};
ghost use Rattle.cfs_image.specs.declared.layout.TheConstants.{MOST_BLOCKS, MOST_QUEUES};
ghost use Rattle.cfs_pmem.specs.Faults.{Rose};
ghost use Rattle.cfs_io.specs.Streams.{SomeCame};
ghost use Rattle.cfs_top.specs.Outside.{Ends, Makes, PlayIsDue, Writes};

use crate::Status;
use crate::check::check;
use crate::command::{
    file_to_dump, image_to_check, image_to_play, image_to_upgrade, store_to_make,
};
use crate::dump::dump;
use crate::play::{PlayEnd, play_script};
use crate::say::say;
use crate::stage::are_served;
use crate::upgrade::upgrade;
use crate::world::World;
use cfs_file::{NoMemory, Word};
use cfs_image::new_image;
use cfs_io::{IoFault, ReadRefusal, Shelf, Sink, Source, read_script};
use cfs_script::{ScriptRefusal, read_play};
use std::alloc::Global;

/// Does what the words ask for, after the program's name. It always returns.
///
/// `mkfs IMAGE BLOCKS QUEUES` saves the image of a new store of 16 to 16,384 blocks and 1 to 64
/// queues, in place of an image of that name. It reads and writes nothing else.
///
/// `play IMAGE` reads a script from `input` and writes what the script's lines answer to `output`.
/// The image is neither loaded nor saved yet: each script begins with an empty file system. A
/// script of more than one caller and the file `/a` is refused yet.
///
/// `upgrade IMAGE NEW` saves what the image of version 1 becomes as an image of the present
/// version, under another name. It reads no input, and the old image stays as it was. Two spellings
/// of one path count as two names; then the new image replaces the old one.
///
/// `check IMAGE` writes one line: what the store of an image holds, or the first check of it that
/// fails. It reads no input, and the shelf stays as it was.
///
/// `dump IMAGE PATH` writes the bytes of the file at a path, as a mount of the image would find it,
/// and nothing else; or that no file is there, as at a directory; or the first check of the image
/// that fails. It reads no input, and the shelf stays as it was.
pub fn crossfs_steady<S: Source, K: Sink, H: Shelf>(
    alloc: Global,
    words: &[Word],
    input: &mut S,
    output: &mut K,
    shelf: &mut H,
) -> Status
    ensures ends { Ends result words.now
        (record {
          left = S.left input.old;
          written = K.written output.old;
          shelf = record {
            files = H.files shelf.old;
            loads = H.load_faults shelf.old;
            saves = H.save_faults shelf.old;
          };
        })
        (record {
          left = S.left input.new;
          written = K.written output.new;
          shelf = record {
            files = H.files shelf.new;
            loads = H.load_faults shelf.new;
            saves = H.save_faults shelf.new;
          };
        }) }

    // A fault is answered only where there was one, and none is passed over.
    ensures input { result ≡ Status.Input → Rose (S.faults input.old) (S.faults input.new) }
    ensures output { result ≡ Status.Output → Rose (K.faults output.old) (K.faults output.new) }
    ensures source { result ≢ Status.Input → S.faults input.new ≡ S.faults input.old }
    ensures sink { result ≢ Status.Output → K.faults output.new ≡ K.faults output.old }
    ensures loads { result ≢ Status.Shelf → H.load_faults shelf.new ≡ H.load_faults shelf.old }
    ensures saves { result ≢ Status.Shelf → H.save_faults shelf.new ≡ H.save_faults shelf.old }
{
    if let Some(store) = store_to_make(words) {
        return mkfs(alloc, store.image, store.blocks, store.queues, shelf);
    }
    if let Some(images) = image_to_upgrade(words) {
        return upgrade(alloc, images.image, images.new, output, shelf);
    }
    if let Some(image) = image_to_check(words) {
        return check(alloc, image, output, shelf);
    }
    match file_to_dump(alloc, words) {
        Ok(Some(file)) => return dump(alloc, file.image, &file.path, output, shelf),
        Ok(None) => {}
        Err(NoMemory) => return Status::NoMemory,
    }
    match image_to_play(words) {
        Some(_) => play(alloc, input, output),
        None => say(output, b"usage\n", Status::Usage),
    }
}

/// Saves the image of a new store of so many blocks and queues.
fn mkfs<H: Shelf>(alloc: Global, image: &Word, blocks: u32, queues: u32, shelf: &mut H) -> Status
    requires fewest_blocks { FEWEST_BLOCKS ≤ blocks }
    requires most_blocks { blocks ≤ MOST_BLOCKS }
    requires fewest_queues { FEWEST_QUEUES ≤ queues }
    requires most_queues { queues ≤ MOST_QUEUES }
    ensures made { Makes result image.now blocks queues
        (record {
          files = H.files shelf.old;
          loads = H.load_faults shelf.old;
          saves = H.save_faults shelf.old;
        })
        (record {
          files = H.files shelf.new;
          loads = H.load_faults shelf.new;
          saves = H.save_faults shelf.new;
        }) }
    ensures loads { H.load_faults shelf.new ≡ H.load_faults shelf.old }
    ensures saves { result ≢ Status.Shelf → H.save_faults shelf.new ≡ H.save_faults shelf.old }
{
    let bytes = match new_image(alloc, blocks, queues) {
        Ok(bytes) => bytes,
        Err(NoMemory) => return Status::NoMemory,
    };
    match shelf.save(image, bytes.as_slice()) {
        Ok(()) => Status::Done,
        Err(IoFault) => Status::Shelf,
    }
}

/// Reads a script from `input` and plays it.
fn play<S: Source, K: Sink>(alloc: Global, input: &mut S, output: &mut K) -> Status
    ensures writes { Writes (PlayIsDue (S.left input.old) (S.left input.new)) result
        (K.written output.old) (K.written output.new) }
    ensures came { SomeCame (S.left input.old) (S.left input.new) }
    ensures shelf { result ≢ Status.Shelf }
    ensures input { result ≡ Status.Input → Rose (S.faults input.old) (S.faults input.new) }
    ensures output { result ≡ Status.Output → Rose (K.faults output.old) (K.faults output.new) }
    ensures source { result ≢ Status.Input → S.faults input.new ≡ S.faults input.old }
    ensures sink { result ≢ Status.Output → K.faults output.new ≡ K.faults output.old }
{
    let bytes = match read_script(alloc, input) {
        Ok(bytes) => bytes,
        Err(ReadRefusal::TooLong) => return say(output, b"script refused\n", Status::Script),
        Err(ReadRefusal::Failed) => return Status::Input,
        Err(ReadRefusal::NoMemory) => return Status::NoMemory,
    };
    let script = match read_play(alloc, bytes.as_slice()) {
        Ok(script) => script,
        Err(ScriptRefusal::Line(_)) => return say(output, b"script refused\n", Status::Script),
        Err(ScriptRefusal::NoMemory) => return Status::NoMemory,
    };
    if !are_served(script.lines()) {
        return say(output, b"script refused\n", Status::Script);
    }
    let mut world = World::new(alloc);
    match play_script(alloc, &mut world, &script, output) {
        Ok(()) => Status::Done,
        Err(PlayEnd::Output) => Status::Output,
        Err(PlayEnd::NoMemory) => Status::NoMemory,
    }
}
