//! The blocks of a store are handed to the records that they are tagged for.
ghost use Rattle.std.specs.Prelude.{◌≡◌, ◌++◌, ◌∷◌, [], IfOk, OnOk, filter, length, map};
ghost use Rattle.std.specs.List.{All};
ghost use Rattle.cfs_active.specs.Memory.{words_seen};
ghost use Rattle.cfs_block.specs.BlockImages.{IsSureBlock};
ghost use Rattle.cfs_block.specs.MemoryBlocks.{seen_of};
ghost use Rattle.cfs_plan.specs.Files.{files_of};
ghost use Rattle.cfs_states.specs.Begins.{begun};
ghost use Rattle.cfs_states.specs.Shares.{AreBelow, IsKnown, free_in, handed, views_of};
ghost use Rattle.cfs_states.specs.Stored.{is_free_block};

use crate::files::owner_of;
use crate::share::Share;
use cfs_block::{FreeBlock, MemBlock};
use cfs_dir::Node;
use cfs_file::NoMemory;
use cfs_pmem::MemRegion;
use indexmap::IndexMap;
use std::alloc::Global;

/// What the inode number is multiplied by in a tag.
const TAG_UNIT: u64 = 65_536;

/// What each record has, by its number, and the blocks that no file has.
#[derive(Drop)]
pub struct Shares {
    pub of_records: Vec<Share>,
    pub free: Vec<FreeBlock<MemBlock>>,
}

impl Shares {
    /// The records with their size regions, and with the inode numbers of these files. No block is
    /// handed out yet. It looks at each node once for each record.
    pub fn new(alloc: Global, nodes: &[Node], sizes: Vec<MemRegion>) -> Result<Shares, NoMemory>
        ensures shares { IfOk result (λ shares. views_of shares ≡
            begun (files_of nodes.now) 0 (map words_seen sizes.items)) }
        ensures free { IfOk result (λ shares. free_in shares ≡ []) }
    {
        let mut of_records = Vec::new(alloc);
        for size in sizes {
            let owner = owner_of(nodes, of_records.len());
            of_records.push(Share::new(alloc, size, owner))?;
        }
        Ok(Shares {
            of_records,
            free: Vec::new(alloc),
        })
    }

    /// Hands a block to the record that it is tagged for, whose number `records` has by the inode
    /// number. A block without a tag is free.
    fn hand_out(&mut self, records: &IndexMap<u64, u32>, block: MemBlock) -> Result<(), NoMemory>
        requires sure { IsSureBlock (seen_of block) }
        requires known { IsKnown records.now (seen_of block) }
        requires records { AreBelow (length self.old.of_records.items) records.now }
        ensures shares { OnOk result (views_of self.new ≡
            handed records.now (seen_of block ∷ []) 0 (views_of self.old)) }
        ensures free { OnOk result (free_in self.new ≡
            free_in self.old ++ filter is_free_block (block ∷ [])) }
        ensures count { length self.new.of_records.items ≡ length self.old.of_records.items }
    {
        let tag = block.tag_word();
        if tag == 0 {
            self.free.push(FreeBlock::new(block))?;
            return Ok(());
        }
        let Some(node) = records.get(&(tag / TAG_UNIT)) else {
            unreachable!();
        };
        self.of_records[*node as usize].add((tag - 1) % TAG_UNIT, block)?;
        Ok(())
    }

    /// Hands out all blocks, in order.
    pub fn hand_out_all(
        &mut self,
        records: &IndexMap<u64, u32>,
        blocks: Vec<MemBlock>,
    ) -> Result<(), NoMemory>
        requires sure { All (λ block. IsSureBlock (seen_of block)) blocks.items }
        requires known { All (λ block. IsKnown records.now (seen_of block)) blocks.items }
        requires records { AreBelow (length self.old.of_records.items) records.now }
        ensures shares { OnOk result (views_of self.new ≡
            handed records.now (map seen_of blocks.items) 0 (views_of self.old)) }
        ensures free { OnOk result (free_in self.new ≡
            free_in self.old ++ filter is_free_block blocks.items) }
    {
        for block in blocks {
            self.hand_out(records, block)?;
        }
        Ok(())
    }
}
