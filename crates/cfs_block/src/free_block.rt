//! Blocks that no file has.
ghost use Rattle.std.specs.Prelude.{◌≡◌, OnOk};
ghost use Rattle.cfs_pmem.specs.Faults.{HasCause};
ghost use Rattle.cfs_block.specs.BlockImages.{AllBlockImages, IsUntagged, IsZero};
ghost use Rattle.cfs_block.specs.BlockOps.{Clears};

use crate::block::{BLOCK_LEN, Block};
use cfs_pmem::{DeviceFault, Power};

/// A block that is untagged in every image: no file has it, whatever a crash leaves.
#[derive(Drop)]
pub struct FreeBlock<B: Block> {
    pub block: B,
    pub ghost untagged: { AllBlockImages (B.seen block) IsUntagged },
}

/// A block that is untagged and holds zeros in every image.
#[derive(Drop)]
pub struct ZeroBlock<B: Block> {
    pub block: B,
    pub ghost zero: { AllBlockImages (B.seen block) IsZero },
}

static ZEROS: [u8; BLOCK_LEN] = [0; BLOCK_LEN];

/// Writes zeros over all bytes of an untagged block and flushes them: two writing steps, or as many
/// as there are up to the one that fails.
fn clear<B: Block, P: Power>(block: &mut B, power: &mut P) -> Result<(), DeviceFault>
    requires { AllBlockImages (B.seen block.old) IsUntagged }
    ensures cleared { Clears B.obeys_power B.keeps_refused result
        (P.asked power.old) (B.seen block.old) (P.asked power.new) (B.seen block.new) }
    ensures zero { OnOk result (AllBlockImages (B.seen block.new) IsZero) }
    ensures untagged { AllBlockImages (B.seen block.new) IsUntagged }
    ensures number { B.number block.new ≡ B.number block.old }
    ensures cause { HasCause (B.faults block.old) (B.faults block.new) result }
{
    block.write(power, 0, &ZEROS)?;
    block.flush(power)?;
    Ok(())
}

impl<B: Block> FreeBlock<B> {
    ghost use Rattle.cfs_block.specs.Untagged.{block_in};

    /// A block that is untagged in every image.
    pub fn new(block: B) -> FreeBlock<B>
        requires { AllBlockImages (B.seen block) IsUntagged }
        ensures { result.block ≡ block }
    {
        FreeBlock { block }
    }

    /// Its number among the blocks of its store.
    pub fn number(&self) -> u32
        ensures { result ≡ B.number self.now.block }
    {
        self.block.number()
    }

    /// The block, as it is.
    pub fn into_block(self) -> B
        ensures block { result ≡ self.block }
        ensures untagged { AllBlockImages (B.seen result) IsUntagged }
    {
        let FreeBlock { block } = self;
        block
    }

    /// Makes it zero in every image, by a write of all its bytes and a flush. At each moment it is
    /// untagged in every image.
    /// A device fault, and nothing else, gives it back untagged: at the write, where some of the
    /// zeros may stand, or at the flush.
    pub fn zero<P: Power>(self, power: &mut P) -> Result<ZeroBlock<B>, FreeBlock<B>>
        ensures cleared { Clears B.obeys_power B.keeps_refused result
            (P.asked power.old) (B.seen self.block) (P.asked power.new) (B.seen (block_in result)) }
        ensures number { B.number (block_in result) ≡ B.number self.block }
        ensures cause { HasCause (B.faults self.block) (B.faults (block_in result)) result }
    {
        let FreeBlock { mut block } = self;
        match clear(&mut block, power) {
            Ok(()) => Ok(ZeroBlock { block }),
            Err(_) => Err(FreeBlock { block }),
        }
    }
}

impl<B: Block> ZeroBlock<B> {
    /// Its number among the blocks of its store.
    pub fn number(&self) -> u32
        ensures { result ≡ B.number self.now.block }
    {
        self.block.number()
    }

    /// The block, as it is.
    pub fn into_block(self) -> B
        ensures block { result ≡ self.block }
        ensures zero { AllBlockImages (B.seen result) IsZero }
    {
        let ZeroBlock { block } = self;
        block
    }

    /// The same block, which is free as it stands: nothing is written.
    pub fn free(self) -> FreeBlock<B>
        ensures { result.block ≡ self.block }
    {
        let ZeroBlock { block } = self;
        FreeBlock { block }
    }
}
