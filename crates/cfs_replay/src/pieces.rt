//! A request is cut into pieces, by the blocks that its file has.
ghost use Rattle.std.specs.Prelude.{◌≡◌, ◌+◌, ◌*◌, ◌<◌, ◌≤◌, ◌^◌, ◌++◌};
ghost use Rattle.std.specs.Option.{option_map, option_to_list};
ghost use Rattle.arrayvec.specs.ArrayVec.{array_vec_len};
ghost use Rattle.cfs_recover.specs.Cut.{piece_in, zeros_in};
ghost use Rattle.cfs_replay.specs.Pieces.{found_at, write_pieces, zero_pieces};

use arrayvec::ArrayVec;
use cfs_block::BLOCK_LEN;
use cfs_recover::{Piece, write_piece, zero_piece};
use indexmap::IndexMap;

/// How many blocks a file has at most, and a request pieces.
pub const MOST_PIECES: usize = 256;

/// What the inode number is multiplied by in a tag.
const TAG_UNIT: u64 = 65_536;

/// The place among all blocks of a block of a file, where the file has it.
fn block_of(found: &IndexMap<u64, u32>, ino: u64, block: usize) -> Option<usize>
    requires ino { ino < 2 ^ 32 }
    requires block { block < 256 }
    ensures { result ≡ found_at found.now ino block }
{
    match found.get(&(ino * TAG_UNIT + block as u64 + 1)) {
        Some(at) => Some(*at as usize),
        None => None,
    }
}

/// The piece of a write for a block of the file, where the file has it. The write touches it.
fn piece_of_write(
    found: &IndexMap<u64, u32>,
    ino: u64,
    block: usize,
    offset: usize,
    len: usize,
) -> Option<Piece>
    requires ino { ino < 2 ^ 32 }
    requires block { block < 256 }
    requires fits { offset + len ≤ 1048576 }
    requires below { offset < 4096 * block + 4096 }
    requires above { 4096 * block < offset + len }
    ensures { result ≡
        option_map (λ at. piece_in at block offset len) (found_at found.now ino block) }
{
    match block_of(found, ino, block) {
        Some(at) => Some(write_piece(at, block, offset, len)),
        None => None,
    }
}

/// That of a truncate. The block has positions from `len` on.
fn piece_of_zeros(found: &IndexMap<u64, u32>, ino: u64, block: usize, len: usize) -> Option<Piece>
    requires ino { ino < 2 ^ 32 }
    requires block { block < 256 }
    requires below { len < 4096 * block + 4096 }
    ensures { result ≡ option_map (λ at. zeros_in at block len) (found_at found.now ino block) }
{
    match block_of(found, ino, block) {
        Some(at) => Some(zero_piece(at, block, len)),
        None => None,
    }
}

/// Adds a piece, where there is one.
fn note_piece(pieces: &mut ArrayVec<Piece, MOST_PIECES>, piece: Option<Piece>)
    requires { array_vec_len pieces.old < 256 }
    ensures items { pieces.new.items ≡ pieces.old.items ++ option_to_list piece }
    ensures len { array_vec_len pieces.new ≤ array_vec_len pieces.old + 1 }
{
    if let Some(piece) = piece {
        pieces.push(piece);
    }
}

/// The pieces of a write of `len` bytes at `offset`, by ascending block of the file. `found` has
/// the block of each tag.
pub fn write_pieces(
    found: &IndexMap<u64, u32>,
    ino: u64,
    offset: usize,
    len: usize,
) -> ArrayVec<Piece, MOST_PIECES>
    requires ino { ino < 2 ^ 32 }
    requires fits { offset + len ≤ 1048576 }
    ensures { result.items ≡ write_pieces found.now ino offset len }
{
    let mut pieces = ArrayVec::new();
    for block in offset / BLOCK_LEN..(offset + len).div_ceil(BLOCK_LEN) {
        note_piece(&mut pieces, piece_of_write(found, ino, block, offset, len));
    }
    pieces
}

/// Those of a truncate to `len` bytes.
pub fn zero_pieces(found: &IndexMap<u64, u32>, ino: u64, len: usize) -> ArrayVec<Piece, MOST_PIECES>
    requires ino { ino < 2 ^ 32 }
    ensures { result.items ≡ zero_pieces found.now ino len }
{
    let mut pieces = ArrayVec::new();
    for block in len / BLOCK_LEN..MOST_PIECES {
        note_piece(&mut pieces, piece_of_zeros(found, ino, block, len));
    }
    pieces
}
