//! A request is cut into pieces, one for each block.
ghost use Rattle.std.specs.Prelude.{◌≡◌, ◌+◌, ◌*◌, ◌<◌, ◌≤◌};
ghost use Rattle.cfs_recover.specs.Cut.{piece_in, zeros_in};

use crate::piece::Piece;
use cfs_block::BLOCK_LEN;

/// The part of a write of `len` bytes at `offset` that is for a block of the file, 0 to 255, which
/// stands at a place among all blocks. The write touches the block.
pub fn write_piece(at: usize, block: usize, offset: usize, len: usize) -> Piece
    requires block { block < 256 }
    requires fits { offset + len ≤ 1048576 }
    requires below { offset < 4096 * block + 4096 }
    requires above { 4096 * block < offset + len }
    ensures { result ≡ piece_in at block offset len }
{
    let first = BLOCK_LEN * block;
    let low = offset.max(first);
    let high = (offset + len).min(first + BLOCK_LEN);
    Piece {
        at,
        from: (low - first) as u32,
        start: low - offset,
        end: high - offset,
    }
}

/// The part of a truncate to `len` bytes that is for such a block. The block has positions from
/// `len` on.
pub fn zero_piece(at: usize, block: usize, len: usize) -> Piece
    requires block { block < 256 }
    requires below { len < 4096 * block + 4096 }
    ensures { result ≡ zeros_in at block len }
{
    let first = BLOCK_LEN * block;
    let low = len.max(first);
    Piece {
        at,
        from: (low - first) as u32,
        start: 0,
        end: first + BLOCK_LEN - low,
    }
}
