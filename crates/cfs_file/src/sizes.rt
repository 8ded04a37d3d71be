//! The sizes and numbers that several layers share, in bytes where no other unit is
//! named (all own).

/// The bytes of a block, and the most that one slot holds of a request's payload.
pub const BLOCK_LEN: u64 = 4096;

/// The most blocks that a file may have.
pub const FILE_BLOCKS: u64 = 256;

/// The most bytes that a file may have: `FILE_BLOCKS` blocks.
pub const LONGEST_FILE: u64 = 1_048_576;

/// The most bytes that one write or append may carry. A longer one is cut to it.
pub const LONGEST_WRITE: u64 = 65_536;

/// The most bytes that one read may ask for.
pub const LONGEST_READ: u64 = 4096;

/// How far apart the kinds of requests stand in a slot's kind word, whose rest is a length.
pub const KIND_UNIT: u64 = 65_536;

/// How many slots a queue has, which is the most that one request takes.
pub const QUEUE_SLOTS: usize = 16;

/// The device number of the first slot. Those of a queue follow one another, and so do the queues.
pub const FIRST_SLOT: u32 = 323;
