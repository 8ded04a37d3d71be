//! The steps by which a mount brings a live entry home: its blocks are written and flushed, its
//! size word is set, and its gate is closed.
//!
//! Each call says which files a crash leaves at each of its moments, as `cfs_home` has them, and
//! which devices stand behind it.
#![tactic(auto)]

mod blocks;
mod cut;
mod ends;
mod entry;
mod home;
mod laws;
mod piece;
mod sweep;
mod tags;
mod words;

pub use blocks::{ZEROS, flush_block, flush_pieces, write_block, write_pieces, write_through};
pub use cut::{write_piece, zero_piece};
pub use ends::settle;
pub use entry::Entry;
pub use home::{bring_bytes, bring_home, bring_through, zero_home};
pub use laws::{
    bytes_are_brought, pieces_are_sure, pieces_hold, rest_is_left, sure_blocks_are_of,
    truncates_are_cut, writes_are_cut,
};
pub use piece::Piece;
pub use sweep::{clear_sizes, close_dead};
pub use tags::untag;
pub use words::{close_gate, set_size};
