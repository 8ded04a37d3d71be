//! Blocks are moved to the end of a list.
ghost use Rattle.std.specs.Prelude.{◌≡◌, ◌++◌, ◌∷◌, [], OnOk, map};
ghost use Rattle.std.specs.List.{flat_map};
ghost use Rattle.cfs_inode.specs.View.{told_cell};
ghost use Rattle.cfs_job.specs.Tiles.{tile_of};
ghost use Rattle.cfs_gather.specs.Seens.{block_of_cell, block_of_tile};

use cfs_block::{Block, FreeBlock};
use cfs_file::NoMemory;
use cfs_job::Lent;
use cfs_pool::Pool;
use cfs_tracker::Cell;

/// Moves a block.
pub fn add_block<B: Block + Drop>(blocks: &mut Vec<B>, block: B) -> Result<(), NoMemory>
    ensures { OnOk result (map B.seen blocks.new.items ≡
        map B.seen blocks.old.items ++ B.seen block ∷ []) }
{
    blocks.push(block)?;
    Ok(())
}

/// Moves the block that a cell has, where it has one.
pub fn add_cell<B: Block + Drop>(blocks: &mut Vec<B>, cell: Cell<B>) -> Result<(), NoMemory>
    ensures { OnOk result (map B.seen blocks.new.items ≡
        map B.seen blocks.old.items ++ block_of_cell (told_cell B.seen cell)) }
{
    match cell {
        Cell::Home(block) | Cell::Unsure(block) => add_block(blocks, block),
        Cell::Hole | Cell::Lent(_) | Cell::Moving(_) => Ok(()),
    }
}

/// Moves the blocks that cells have, in order.
pub fn add_cells<B: Block + Drop>(blocks: &mut Vec<B>, cells: Vec<Cell<B>>) -> Result<(), NoMemory>
    ensures { OnOk result (map B.seen blocks.new.items ≡
        map B.seen blocks.old.items ++ flat_map block_of_cell (map (told_cell B.seen) cells.items)) }
{
    for cell in cells {
        add_cell(blocks, cell)?;
    }
    Ok(())
}

/// Moves the block that a job had, where it had one.
pub fn add_lent<B: Block + Drop>(blocks: &mut Vec<B>, lent: Option<Lent<B>>) -> Result<(), NoMemory>
    ensures { OnOk result (map B.seen blocks.new.items ≡
        map B.seen blocks.old.items ++ block_of_tile (tile_of B.seen B.number lent)) }
{
    match lent {
        Some(lent) => add_block(blocks, lent.block),
        None => Ok(()),
    }
}

/// Moves the blocks that no file has, in any order.
pub fn add_pool<B: Block + Drop>(
    blocks: &mut Vec<B>,
    pool: Pool<FreeBlock<B>>,
) -> Result<(), NoMemory>
    ensures { OnOk result (map B.seen blocks.new.items ≡
        map B.seen blocks.old.items ++ map (λ free. B.seen free.block) pool.free) }
{
    for ranked in pool.into_parts() {
        add_block(blocks, ranked.item.into_block())?;
    }
    Ok(())
}
