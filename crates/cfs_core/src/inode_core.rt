//! The core of one inode.

ghost use Rattle.std.specs.Prelude.{◌≡◌, IfOk};
ghost use Rattle.cfs_core.specs.Fresh.{IsEmpty, IsFresh};

use crate::{Doubt, Flag, Items, Stretch, Track};
use cfs_file::{Bytes, Entry, FILE_BLOCKS, NoMemory};
use std::alloc::Global;

/// One inode as the events see it: what was asked of it, how far that has come, and what is known
/// of its part of the medium.
#[derive(Drop)]
pub struct Core {
    /// The file at the last mount.
    pub base: Bytes,
    /// The entries admitted since, in order of place.
    pub log: Items<Entry>,
    /// What is kept of each logged entry.
    pub tracks: Items<Track>,
    /// The request whose admission failed, if any.
    pub doubt: Option<Doubt>,
    /// The size word as it reads.
    pub size: u64,
    /// What else an image of the size word may have.
    pub sizes: Items<u64>,
    /// Of each block of the file, whether a block of the medium is tagged for it.
    pub tags: Items<Flag>,
    /// The byte that reads at each position; 0 behind the last.
    pub bytes: Bytes,
    /// The positions where an image may have other bytes.
    pub loose: Items<Stretch>,
    /// A crash came, and no mount since.
    pub crashed: bool,
}

impl Core {
    /// The core of an empty file without blocks.
    pub fn empty(alloc: Global) -> Result<Core, NoMemory>
        ensures empty { IfOk result IsEmpty }
        ensures fresh { IfOk result IsFresh }
    {
        let mut tags = Items::new(alloc);
        for block in 0..FILE_BLOCKS {
            tags.push(Flag::Off)?;
        }
        Ok(Core {
            base: Bytes::new(alloc),
            log: Items::new(alloc),
            tracks: Items::new(alloc),
            doubt: None,
            size: 0,
            sizes: Items::new(alloc),
            tags,
            bytes: Bytes::new(alloc),
            loose: Items::new(alloc),
            crashed: false,
        })
    }
}
