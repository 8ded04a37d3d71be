//! The blocks of a request are written and flushed.
ghost use Rattle.std.specs.Prelude.{◌≡◌, ◌+◌, ◌-◌, ◌<◌, ◌≤◌, ℕ, List, length, map, get_or, OnOk};
ghost use Rattle.cfs_file.specs.declared.request.Request.{Request};
ghost use Rattle.cfs_pmem.specs.AllMoments.{AreDistinct};
ghost use Rattle.cfs_pmem.specs.Objects.{all_devices};
ghost use Rattle.cfs_block.specs.BlockImages.{Content};
ghost use Rattle.cfs_slot.specs.Payload.{HaveCause};
ghost use Rattle.cfs_home.specs.Calls.{IsPiece};
ghost use Rattle.cfs_recover.specs.Pieces.{ArePieces, LeavesBeside, LiesWithin, with_flush};
ghost use Rattle.cfs_recover.specs.Pieces.{with_flushes, with_write, with_writes};
ghost use Rattle.cfs_recover.specs.Pieces.{with_writes_through};

use crate::piece::Piece;
use cfs_block::Block;
use cfs_pmem::{DeviceFault, Power};

/// What a truncate brings to a block.
pub static ZEROS: [u8; 4096] = [0; 4096];

/// Writes bytes into a block, from `from` on.
pub fn write_block<B: Block, P: Power>(
    blocks: &mut [B],
    power: &mut P,
    at: usize,
    from: u32,
    bytes: &[u8],
) -> Result<(), DeviceFault>
    requires place { at < length blocks.old }
    requires fits { from + length bytes.now ≤ 4096 }
    requires distinct { AreDistinct (all_devices (map B.seen blocks.old)) }
    ensures ok { OnOk result
        (map B.seen blocks.new ≡ with_write at from bytes.now (map B.seen blocks.old)) }
    ensures beside { (ino : ℕ) (request : Request) (first : List Content) →
        IsPiece ino request first at from (length bytes.now) →
        LeavesBeside ino request first (P.asked power.old) (map B.seen blocks.old)
        (P.asked power.new) (map B.seen blocks.new) }
    ensures devices { all_devices (map B.seen blocks.new) ≡ all_devices (map B.seen blocks.old) }
    ensures numbers { map B.number blocks.new ≡ map B.number blocks.old }
    ensures cause { HaveCause (map B.faults blocks.old) (map B.faults blocks.new) result }
{
    blocks[at].write(power, from, bytes)
}

/// Flushes a block.
pub fn flush_block<B: Block, P: Power>(
    blocks: &mut [B],
    power: &mut P,
    at: usize,
) -> Result<(), DeviceFault>
    requires place { at < length blocks.old }
    requires distinct { AreDistinct (all_devices (map B.seen blocks.old)) }
    ensures ok { OnOk result
        (map B.seen blocks.new ≡ with_flush at (map B.seen blocks.old)) }
    ensures beside { (ino : ℕ) (request : Request) (first : List Content) →
        LeavesBeside ino request first (P.asked power.old) (map B.seen blocks.old)
        (P.asked power.new) (map B.seen blocks.new) }
    ensures devices { all_devices (map B.seen blocks.new) ≡ all_devices (map B.seen blocks.old) }
    ensures numbers { map B.number blocks.new ≡ map B.number blocks.old }
    ensures cause { HaveCause (map B.faults blocks.old) (map B.faults blocks.new) result }
{
    blocks[at].flush(power)
}

/// Writes the pieces of a request, each into its block, in their order.
pub fn write_pieces<B: Block, P: Power>(
    blocks: &mut [B],
    power: &mut P,
    pieces: &[Piece],
    bytes: &[u8],
) -> Result<(), DeviceFault>
    requires within { (k : ℕ) (d : Piece) → k < length pieces.now →
        LiesWithin (length blocks.old) (length bytes.now) (get_or pieces.now k d) }
    requires distinct { AreDistinct (all_devices (map B.seen blocks.old)) }
    ensures ok { OnOk result (map B.seen blocks.new ≡
        with_writes pieces.now bytes.now (map B.seen blocks.old)) }
    ensures beside { (ino : ℕ) (request : Request) (first : List Content) →
        ArePieces ino request first pieces.now →
        LeavesBeside ino request first (P.asked power.old) (map B.seen blocks.old)
        (P.asked power.new) (map B.seen blocks.new) }
    ensures devices { all_devices (map B.seen blocks.new) ≡ all_devices (map B.seen blocks.old) }
    ensures numbers { map B.number blocks.new ≡ map B.number blocks.old }
    ensures cause { HaveCause (map B.faults blocks.old) (map B.faults blocks.new) result }
{
    for piece in pieces {
        let part = &bytes[piece.start..piece.end];
        write_block(blocks, power, piece.at, piece.from, part)?;
    }
    Ok(())
}

/// Flushes the block of each piece, in their order.
pub fn flush_pieces<B: Block, P: Power>(
    blocks: &mut [B],
    power: &mut P,
    pieces: &[Piece],
) -> Result<(), DeviceFault>
    requires within { (k : ℕ) (d : Piece) → k < length pieces.now →
        (get_or pieces.now k d).at < length blocks.old }
    requires distinct { AreDistinct (all_devices (map B.seen blocks.old)) }
    ensures ok { OnOk result
        (map B.seen blocks.new ≡ with_flushes pieces.now (map B.seen blocks.old)) }
    ensures beside { (ino : ℕ) (request : Request) (first : List Content) →
        LeavesBeside ino request first (P.asked power.old) (map B.seen blocks.old)
        (P.asked power.new) (map B.seen blocks.new) }
    ensures devices { all_devices (map B.seen blocks.new) ≡ all_devices (map B.seen blocks.old) }
    ensures numbers { map B.number blocks.new ≡ map B.number blocks.old }
    ensures cause { HaveCause (map B.faults blocks.old) (map B.faults blocks.new) result }
{
    for piece in pieces {
        flush_block(blocks, power, piece.at)?;
    }
    Ok(())
}

/// Writes the pieces of a request in their order, and flushes the block of each one before the next
/// is written.
pub fn write_through<B: Block, P: Power>(
    blocks: &mut [B],
    power: &mut P,
    pieces: &[Piece],
    bytes: &[u8],
) -> Result<(), DeviceFault>
    requires within { (k : ℕ) (d : Piece) → k < length pieces.now →
        LiesWithin (length blocks.old) (length bytes.now) (get_or pieces.now k d) }
    requires distinct { AreDistinct (all_devices (map B.seen blocks.old)) }
    ensures ok { OnOk result (map B.seen blocks.new ≡
        with_writes_through pieces.now bytes.now (map B.seen blocks.old)) }
    ensures beside { (ino : ℕ) (request : Request) (first : List Content) →
        ArePieces ino request first pieces.now →
        LeavesBeside ino request first (P.asked power.old) (map B.seen blocks.old)
        (P.asked power.new) (map B.seen blocks.new) }
    ensures devices { all_devices (map B.seen blocks.new) ≡ all_devices (map B.seen blocks.old) }
    ensures numbers { map B.number blocks.new ≡ map B.number blocks.old }
    ensures cause { HaveCause (map B.faults blocks.old) (map B.faults blocks.new) result }
{
    for piece in pieces {
        let (at, from) = (piece.at, piece.from);
        write_block(blocks, power, at, from, &bytes[piece.start..piece.end])?;
        flush_block(blocks, power, at)?;
    }
    Ok(())
}
