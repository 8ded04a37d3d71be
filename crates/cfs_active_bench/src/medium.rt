//! Devices in memory.

ghost use Rattle.std.specs.Prelude.{◌≡◌, ◌<◌, ◌∷◌, [], IfOk};
ghost use Rattle.cfs_pmem.specs.Images.{began};
ghost use Rattle.cfs_active.specs.Memory.{words_seen};

use cfs_block::{BLOCK_LEN, FreeBlock, MemBlock, ZeroBlock};
use cfs_file::NoMemory;
use cfs_pmem::{MemRegion, Meter};
use cfs_slot::{FIRST_SLOT, QUEUE_SLOTS, Slot};
use cfs_vec::FixedVec;
use std::alloc::{AllocError, Global};

/// How many blocks the file has.
pub const BLOCKS: usize = 256;

/// The slots of a request.
pub type Slots = FixedVec<Slot<MemRegion>, QUEUE_SLOTS>;

/// Blocks of zeros.
pub type Stock = FixedVec<ZeroBlock<MemBlock>, BLOCKS>;

/// The region of an empty size word.
pub fn empty_size(alloc: Global) -> Result<MemRegion, AllocError>
    ensures { IfOk result (λ region. words_seen region ≡ began 69 (0 ∷ [])) }
{
    match MemRegion::new(alloc, 69, vec![in alloc; 0; 1]?) {
        Ok(region) => Ok(region),
        Err(_) => Err(AllocError),
    }
}

/// The first slot of a queue, which holds nothing.
pub fn empty_slot(alloc: Global) -> Result<Slots, AllocError> {
    let words = vec![in alloc; 0; 518]?;
    let Ok(region) = MemRegion::new(alloc, FIRST_SLOT, words) else {
        return Err(AllocError);
    };
    let mut slots = FixedVec::new();
    slots.push(Slot::new(region));
    Ok(slots)
}

/// A block of zeros that is tagged for no file.
fn zero_block(
    alloc: Global,
    meter: &mut Meter,
    number: u32,
) -> Result<ZeroBlock<MemBlock>, NoMemory>
    requires { number < 256 }
{
    let bytes = vec![in alloc; 0; BLOCK_LEN]?;
    let Ok(block) = MemBlock::new(alloc, 100_000 + number, number, 0, bytes) else {
        return Err(NoMemory);
    };
    match FreeBlock::new(block).zero(meter) {
        Ok(zero) => Ok(zero),
        Err(_) => Err(NoMemory),
    }
}

/// A block for each of the file.
pub fn full_stock(alloc: Global, meter: &mut Meter) -> Result<Stock, NoMemory> {
    let mut stock = FixedVec::new();
    for number in 0..BLOCKS as u32 {
        let block = zero_block(alloc, meter, number)?;
        if stock.len() < BLOCKS {
            stock.push(block);
        }
    }
    Ok(stock)
}
