ghost use Rattle.std.specs.Prelude.{◌≡◌, ◌+◌, ◌-◌, ◌<◌, ◌≤◌, ℕ, true, false, IfNone, IfSome, OnOk, OnErr, OnSome, Some, None};
ghost use Rattle.std.specs.FinMap as map;
ghost use Rattle.cfs_extent.specs.Extents.{IsNextFrom, block_at};

use crate::room::insert_within;
use crate::runs::Runs;
use cfs_file::FILE_BLOCKS;
use std::alloc::{AllocError, Global};
use std::marker::Model;

/// How many file blocks a file has at most; they count from 0.
pub const BLOCKS: u32 = FILE_BLOCKS as u32;

/// The blocks of one file by file block. A block that is out has its file block kept for it.
///
/// Every call looks at the runs one after another, and a `put` or a `remove` moves what stands
/// behind its block. Only `reserve` takes memory.
#[derive(Debug, Drop)]
pub struct ExtentMap<B> {
    /// The mapped blocks by ascending file block, and nothing for one that is out.
    blocks: Vec<Option<B>>,
    /// Their file blocks.
    runs: Runs,
}

impl<B> Model for ExtentMap<B> {
    ghost use Rattle.std.specs.Prelude.{◌≡◌, ◌≤◌, length, min, vec_capacity};
    ghost use Rattle.cfs_extent.specs.Extents.{Extents, extents_code, extents_of};

    ghost Value = { Extents B };

    ghost coded = { extents_code B.code };

    ghost view = { λ m. extents_of m.runs.list m.blocks.items
        (min (vec_capacity m.blocks) m.runs.room) };

    // A run for each block is enough, and there is room for so many.
    ghost invariant = { λ m. (length m.runs.list ≡ length m.blocks.items) ×
        (length m.blocks.items ≤ m.runs.room) };
}

impl<B> ExtentMap<B> {
    /// A map of no file block. It takes no memory.
    pub fn new(alloc: Global) -> Self
        ensures { result.held ≡ map.empty }
    {
        ExtentMap {
            blocks: Vec::new(alloc),
            runs: Runs::new(alloc),
        }
    }

    /// Makes room for at least `blocks` more. Without memory the room is no less than it was.
    pub fn reserve(&mut self, blocks: u32) -> Result<(), AllocError>
        ensures held { self.new.held ≡ self.old.held }
        ensures room { OnOk result (blocks ≤ self.new.spare) }
        ensures kept { self.old.spare ≤ self.new.spare }
    {
        self.blocks.reserve(blocks as usize)?;
        self.runs.reserve(self.blocks.len() + blocks as usize)?;
        Ok(())
    }

    /// Whether a file block is mapped, also where its block is out.
    pub fn is_mapped(&self, k: u32) -> bool
        ensures { result ≡ map.contains_key self.now.held k }
    {
        self.runs.find(k).is_some()
    }

    /// Maps a file block to a block.
    pub fn put(&mut self, k: u32, block: B)
        requires file_block { k < 256 }
        requires unmapped { map.get self.old.held k ≡ None }
        requires room { 0 < self.old.spare }
        ensures { self.new ≡ record {
          held = map.insert self.old.held k (Some block);
          spare = self.old.spare - 1;
        } }
    {
        let at = self.runs.add(k);
        insert_within(&mut self.blocks, at, Some(block));
    }

    /// Hands out the block of a file block, which is out from then on; none exactly where the file
    /// block is not mapped or its block is out, and then nothing changes.
    pub fn lend(&mut self, k: u32) -> Option<B>
        ensures block { result ≡ block_at self.old.held k }
        ensures lent { OnSome result (self.new ≡
            record self.old { held = map.insert self.old.held k None }) }
        ensures unchanged { IfNone result (self.new ≡ self.old) }
    {
        let at = self.runs.find(k)?;
        self.blocks[at].take()
    }

    /// Takes a block back for a file block whose block is out.
    pub fn put_back(&mut self, k: u32, block: B)
        requires { map.get self.old.held k ≡ Some None }
        ensures { self.new ≡ record self.old { held = map.insert self.old.held k (Some block) } }
    {
        let Some(at) = self.runs.find(k) else {
            unreachable!();
        };
        match self.blocks[at].replace(block) {
            None => {}
            Some(_) => unreachable!(),
        }
    }

    /// Takes a file block out of the map and gives its block; none exactly where the file block is
    /// not mapped or its block is out, and then nothing changes.
    pub fn remove(&mut self, k: u32) -> Option<B>
        ensures block { result ≡ block_at self.old.held k }
        ensures removed { OnSome result (self.new ≡ record {
          held = map.remove self.old.held k;
          spare = self.old.spare + 1;
        }) }
        ensures unchanged { IfNone result (self.new ≡ self.old) }
    {
        let at = self.runs.find(k)?;
        if self.blocks[at].is_none() {
            return None;
        }
        self.runs.remove(k);
        self.blocks.remove(at)
    }

    /// The lowest mapped file block from `k` on, also where its block is out; none exactly where
    /// no such file block is mapped.
    pub fn next_from(&self, k: u32) -> Option<u32>
        ensures next { IfSome result (IsNextFrom self.now.held k) }
        ensures none { IfNone result ((q : ℕ) → k ≤ q → map.contains_key self.now.held q ≡ false) }
        ensures within { (q : ℕ) → map.contains_key self.now.held q ≡ true → q < 256 }
    {
        self.runs.next_from(k)
    }

    /// The blocks by ascending file block, and nothing for one that is out.
    pub fn into_parts(self) -> Vec<Option<B>>
        ensures { result.items ≡ map.values self.held }
    {
        let ExtentMap { blocks, runs: _ } = self;
        blocks
    }
}
