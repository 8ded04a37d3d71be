//! A block of bytes.
ghost use Rattle.std.specs.Prelude.{◌≡◌, ◌+◌, ◌≤◌, ℕ, Bool, true, false, IsTrue, length, take, drop, IfOk, OnOk, OnErr};
ghost use Rattle.cfs_pmem.specs.Asks.{AsksOnce, AsksSome};
ghost use Rattle.cfs_pmem.specs.Faults.{HasCause};
ghost use Rattle.cfs_pmem.specs.Images.{Seen, devices_of};
ghost use Rattle.cfs_block.specs.BlockImages.{BlockStep, content_of, wrote, retagged, kept, unflushed, WriteFails, TagFails};
ghost use Rattle.cfs_block.specs.BlockOps.{SetsTag};

use cfs_pmem::{DeviceFault, Power};

/// A device of 4096 bytes and one tag word. What is written and tagged stays through a crash once a
/// later `flush` has succeeded.
/// Each call asks the power for a step first, and answers a fault only where its count of faults
/// rose.
pub trait Block {
    /// Its devices and its writing steps so far, with the content after each: so what it holds, and
    /// what a crash may leave.
    ghost seen: { Self → Seen BlockStep };

    /// Its number among the blocks of its store.
    ghost number: { Self → ℕ };

    /// How often it has failed, up to the last value of a `u64`.
    ghost faults: { Self → ℕ };

    /// Whether each call asks for one step of this device, and fails exactly where it is refused,
    /// as on a device in memory.
    ghost obeys_power: { Bool };

    /// Whether a write and a tag that failed leave all that is read as it was, as on a device in
    /// memory.
    ghost keeps_refused: { Bool };

    /// Its device number, which never changes.
    fn device(&self) -> u32
        ensures { result ≡ (seen self.now).device };

    /// Its number, which never changes.
    fn number(&self) -> u32
        ensures { result ≡ number self.now };

    /// Reads the bytes from `from` on that `out` has room for, by a reading step. A fault leaves
    /// `out` as it was.
    fn read<P: Power>(
        &mut self,
        power: &mut P,
        from: u32,
        out: &mut [u8],
    ) -> Result<(), DeviceFault>
        requires { from + length out.old ≤ 4096 }
        ensures ok { OnOk result
            (out.new ≡ take (length out.old) (drop from (content_of (seen self.old)).bytes)) }
        ensures err { OnErr result (out.new ≡ out.old) }
        ensures seen { seen self.new ≡ seen self.old }
        ensures number { number self.new ≡ number self.old }
        ensures asks { AsksSome (devices_of (seen self.old))
            (P.asked power.old) (P.asked power.new) }
        ensures asked { IsTrue obeys_power →
            AsksOnce (seen self.old).device false result (P.asked power.old) (P.asked power.new) }
        ensures cause { HasCause (faults self.old) (faults self.new) result };

    /// Writes bytes from `from` on, by a writing step. Until a `flush` has succeeded a crash may
    /// leave any bytes in that range.
    /// A fault may leave any bytes in the range, and nothing else changed.
    fn write<P: Power>(&mut self, power: &mut P, from: u32, bytes: &[u8]) -> Result<(), DeviceFault>
        requires { from + length bytes.now ≤ 4096 }
        ensures ok { OnOk result (seen self.new ≡ wrote from bytes.now (seen self.old)) }
        ensures err { OnErr result
            (WriteFails keeps_refused from (length bytes.now) (seen self.old) (seen self.new)) }
        ensures number { number self.new ≡ number self.old }
        ensures asks { AsksSome (devices_of (seen self.old))
            (P.asked power.old) (P.asked power.new) }
        ensures asked { IsTrue obeys_power →
            AsksOnce (seen self.old).device true result (P.asked power.old) (P.asked power.new) }
        ensures cause { HasCause (faults self.old) (faults self.new) result };

    /// Reads the tag word, by a reading step.
    fn tag<P: Power>(&mut self, power: &mut P) -> Result<u64, DeviceFault>
        ensures tag { IfOk result (λ tag. tag ≡ (content_of (seen self.old)).tag) }
        ensures seen { seen self.new ≡ seen self.old }
        ensures number { number self.new ≡ number self.old }
        ensures asks { AsksSome (devices_of (seen self.old))
            (P.asked power.old) (P.asked power.new) }
        ensures asked { IsTrue obeys_power →
            AsksOnce (seen self.old).device false result (P.asked power.old) (P.asked power.new) }
        ensures cause { HasCause (faults self.old) (faults self.new) result };

    /// Sets the tag word, by a writing step. A fault may leave the old tag or the new one, and
    /// nothing else changed.
    fn set_tag<P: Power>(&mut self, power: &mut P, tag: u64) -> Result<(), DeviceFault>
        ensures ok { OnOk result (seen self.new ≡ retagged tag (seen self.old)) }
        ensures err { OnErr result (TagFails keeps_refused tag (seen self.old) (seen self.new)) }
        ensures number { number self.new ≡ number self.old }
        ensures asks { AsksSome (devices_of (seen self.old))
            (P.asked power.old) (P.asked power.new) }
        ensures asked { IsTrue obeys_power →
            AsksOnce (seen self.old).device true result (P.asked power.old) (P.asked power.new) }
        ensures cause { HasCause (faults self.old) (faults self.new) result };

    /// Makes the bytes and the tag durable, by a writing step: behind it the content now is all
    /// that a crash may leave.
    fn flush<P: Power>(&mut self, power: &mut P) -> Result<(), DeviceFault>
        ensures ok { OnOk result (seen self.new ≡ kept (seen self.old)) }
        ensures err { OnErr result (seen self.new ≡ unflushed (seen self.old)) }
        ensures number { number self.new ≡ number self.old }
        ensures asks { AsksSome (devices_of (seen self.old))
            (P.asked power.old) (P.asked power.new) }
        ensures asked { IsTrue obeys_power →
            AsksOnce (seen self.old).device true result (P.asked power.old) (P.asked power.new) }
        ensures cause { HasCause (faults self.old) (faults self.new) result };

    /// A block has 4096 bytes.
    ghost full: { (block : Self) → length (content_of (seen block)).bytes ≡ 4096 };
}

/// How many bytes a block has.
pub const BLOCK_LEN: usize = cfs_file::BLOCK_LEN as usize;

/// Sets the tag and flushes it: two writing steps, or as many as there are up to the one that
/// fails.
#[inline]
pub fn retag<B: Block, P: Power>(block: &mut B, power: &mut P, tag: u64) -> Result<(), DeviceFault>
    ensures set { SetsTag B.obeys_power B.keeps_refused tag result
        (P.asked power.old) (B.seen block.old) (P.asked power.new) (B.seen block.new) }
    ensures number { B.number block.new ≡ B.number block.old }
    ensures cause { HasCause (B.faults block.old) (B.faults block.new) result }
{
    block.set_tag(power, tag)?;
    block.flush(power)?;
    Ok(())
}
