//! The file at a path.
ghost use Rattle.std.specs.Prelude.{◌≡◌, IfErr, IfOk, None, OnOk};
ghost use Rattle.cfs_dump.specs.Dumped.{dumped, file_at};
ghost use Rattle.cfs_dump.specs.Reads.{TellFile};
ghost use Rattle.cfs_dump.specs.Stores.{store_in};
ghost use Rattle.cfs_fsck.specs.Images.{image_checks, image_words};
ghost use Rattle.cfs_fsck.specs.Refusals.{NamesFault};
ghost use Rattle.cfs_image.specs.Checks.{IsSound, damage_of};
ghost use Rattle.cfs_medium.specs.Store.{recovered_file};
ghost use Rattle.cfs_survey.specs.Surveys.{words_of};

use crate::replay::take_through;
use crate::stored::stored_bytes;
use cfs_cred::Credential;
use cfs_dir::{Node, Path, Tree};
use cfs_file::{Bytes, NoMemory, QUEUE_SLOTS};
use cfs_fsck::survey_image;
use cfs_image::ImageRefusal;
use cfs_survey::{LiveEntry, StoreWords, Survey};
use indexmap::IndexMap;
use std::alloc::Global;

/// The user who has every right.
const SUPERUSER: Credential = Credential { uid: 0, gid: 0 };

/// The node of the file at a path.
fn file_at(tree: &Tree, path: &Path) -> Option<Node>
    ensures { result ≡ file_at tree.now path.now }
{
    match tree.lookup(SUPERUSER, path) {
        Ok(node) if !node.kind.is_directory() => Some(node),
        _ => None,
    }
}

/// The bytes of a file of the image's tree. `blocks` has the block of each tag, and `entries` all
/// live entries, by inode number and gate.
fn recovered(
    alloc: Global,
    bytes: &[u8],
    words: &StoreWords,
    blocks: &IndexMap<u64, u32>,
    entries: &[LiveEntry],
    node: &Node,
) -> Result<Bytes, NoMemory>
    requires header { IsSound bytes.now }
    requires words { words_of words.now ≡ image_words bytes.now }
    requires told { TellFile bytes.now node.now blocks.now entries.now }
    ensures { IfOk result (λ file.
        file ≡ recovered_file node.now.ino (store_in bytes.now node.now.rec)) }
{
    let queues = (words.slots.len() / QUEUE_SLOTS) as u32;
    let size = words.sizes[node.rec as usize];
    let stored = stored_bytes(alloc, bytes, queues, blocks, node.ino, size)?;
    let mut file = Bytes::from_vec(stored);
    take_through(alloc, bytes, &words.slots, node.ino, entries, &mut file)?;
    Ok(file)
}

/// The bytes of the file at a path, as a mount of the image would find them: the stored file, taken
/// through its live entries in order. None where no file is there.
///
/// `Damaged` names the first check of the image that fails, as `check_image` does. `NoMemory` comes
/// for images alone whose length and header are sound. Takes memory for the words that the checks
/// look at, for the tree and for the file; linear in the image.
pub fn dump_file(alloc: Global, bytes: &[u8], path: &Path) -> Result<Option<Bytes>, ImageRefusal>
    ensures sound { OnOk result (damage_of (image_checks bytes.now) ≡ None) }
    ensures dumped { IfOk result (λ file. file ≡ dumped bytes.now path.now) }
    ensures err { IfErr result (NamesFault bytes.now) }
{
    let (words, survey) = survey_image(alloc, bytes)?;
    let Survey {
        tree,
        blocks,
        entries,
    } = survey;
    let tree = Tree::new(alloc, tree.nodes, tree.next)?;
    match file_at(&tree, path) {
        Some(node) => {
            let file = recovered(alloc, bytes, &words, &blocks, &entries, &node)?;
            Ok(Some(file))
        }
        None => Ok(None),
    }
}
