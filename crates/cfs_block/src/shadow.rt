//! A block that is more than one device.
ghost use Rattle.std.specs.Prelude.{false};
ghost use Rattle.cfs_block.specs.Shadows.{beside};

use crate::block::Block;
use cfs_pmem::{DeviceFault, Power};

/// A block over two: what is written goes to the second one too, whose faults are passed over, and
/// what it holds is what the first one holds.
/// It shows that a block may make steps on several devices.
#[derive(Drop)]
pub struct Shadow<A: Block, B: Block> {
    pub first: A,
    pub second: B,
}

impl<A: Block, B: Block> Block for Shadow<A, B> {
    ghost seen = { λ s. beside (A.seen s.first) (B.seen s.second) };

    ghost number = { λ s. A.number s.first };

    ghost faults = { λ s. A.faults s.first };

    ghost obeys_power = { false };

    ghost keeps_refused = { A.keeps_refused };

    ghost full = { λ s. A.full s.first };

    fn device(&self) -> u32 {
        self.first.device()
    }

    fn number(&self) -> u32 {
        self.first.number()
    }

    fn read<P: Power>(
        &mut self,
        power: &mut P,
        from: u32,
        out: &mut [u8],
    ) -> Result<(), DeviceFault> {
        let _ = self.second.tag(power);
        self.first.read(power, from, out)
    }

    fn write<P: Power>(
        &mut self,
        power: &mut P,
        from: u32,
        bytes: &[u8],
    ) -> Result<(), DeviceFault> {
        let _ = self.second.write(power, from, bytes);
        self.first.write(power, from, bytes)
    }

    fn tag<P: Power>(&mut self, power: &mut P) -> Result<u64, DeviceFault> {
        self.first.tag(power)
    }

    fn set_tag<P: Power>(&mut self, power: &mut P, tag: u64) -> Result<(), DeviceFault> {
        let _ = self.second.set_tag(power, tag);
        self.first.set_tag(power, tag)
    }

    fn flush<P: Power>(&mut self, power: &mut P) -> Result<(), DeviceFault> {
        let _ = self.second.flush(power);
        self.first.flush(power)
    }
}
