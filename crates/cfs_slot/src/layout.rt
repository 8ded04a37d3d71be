//! Where the words of a slot stand in its region (own).

/// How many words a slot has.
pub const SLOT_WORDS: u32 = 518;

/// The gate: 0 where it is closed, and else the place of the entry.
pub const GATE: u32 = 0;

/// The mark: 1 where the entry is a no-op, and else 0.
pub const MARK: u32 = 1;

/// The inode number of the file.
pub const INO: u32 = 2;

/// The offset of a write, in bytes, or the new length of a truncate.
pub const OFFSET: u32 = 3;

/// The kind, times 65,536, and the length of the payload in bytes. Of the head of a long write the
/// length of the whole write less one, and from `TAILS_UNIT` on a bit for the number of each tail.
pub const KIND: u32 = 4;

/// The number of the grant under which the request came.
pub const GRANT: u32 = 5;

/// The first of the payload's 512 words. Each holds eight bytes, the first one lowest.
pub const PAYLOAD: u32 = 6;

/// The kind of a write, whose payload has 1 to 4096 bytes.
pub const WRITE: u64 = 1;

/// The kind of a truncate, which has no payload.
pub const TRUNCATE: u64 = 2;

/// The kind of the head of a long write, which has 4097 to 65,536 bytes: the first 4096 stand in
/// the head, and the others in its tails.
pub const LONG_WRITE: u64 = 3;

/// The kind of a tail, whose payload has 1 to 4096 bytes.
pub const TAIL: u64 = 4;

/// What the set of the tails is multiplied by where it shares a word with the kind and the length.
pub const TAILS_UNIT: u64 = 4_294_967_296;

/// The most tails that a long write has.
pub const MOST_TAILS: usize = 15;

/// The most slots that a request takes, and how many a queue has.
pub const QUEUE_SLOTS: usize = cfs_file::QUEUE_SLOTS;

/// The device number of the first slot. Those of a queue follow one another.
pub const FIRST_SLOT: u32 = cfs_file::FIRST_SLOT;
