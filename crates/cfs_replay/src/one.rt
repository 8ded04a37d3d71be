//! One live entry is brought home.
ghost use Rattle.std.specs.Prelude.{◌≡◌, ◌≢◌, ◌+◌, ◌*◌, ◌/◌, ◌<◌, ◌^◌, ◌++◌, length, map};
ghost use Rattle.cfs_pmem.specs.AllMoments.{AreDistinct};
ghost use Rattle.cfs_block.specs.Devices.{numbers_of};
ghost use Rattle.cfs_slot.specs.Payload.{HaveCause};
ghost use Rattle.cfs_recover.specs.Begins.{both};
ghost use Rattle.cfs_recover.specs.Words.{HaveFirstWords};
ghost use Rattle.cfs_replay.specs.Entries.{BringsHome, HoldsWhole, IsTakenUp};
ghost use Rattle.cfs_replay.specs.Pieces.{FindsBlocks, tags_in};
ghost use Rattle.cfs_replay.specs.Reading.{AreSlots, words_at};

use crate::payload::{places_of, read_payload};
use crate::pending::Pending;
use crate::pieces::{write_pieces, zero_pieces};
use crate::reading::{read_found, read_word};
use cfs_block::Block;
use cfs_pmem::{DeviceFault, Power, Region};
use cfs_recover::{Entry, bring_home, zero_home};
use cfs_slot::{Found, TRUNCATE};
use indexmap::IndexMap;

/// The place of the first size word among the regions.
const SIZES: usize = 67;

/// Brings a truncate home, which is the lowest live entry of its file: zeros are written to the
/// blocks of the file from its length on, each flushed before the next, the size word is set where
/// it changes, and the gate is closed. `head` is what its slot tells, `size` the size word of its
/// file, and `found` has the block of each tag of the file.
///
/// A crash at any moment leaves what a mount finds the same files in. Fails for a device fault
/// alone.
pub fn bring_truncate<R: Region, B: Block, P: Power>(
    regions: &mut [R],
    blocks: &mut [B],
    power: &mut P,
    found: &IndexMap<u64, u32>,
    pending: Pending,
    head: Found,
    size: u64,
) -> Result<(), DeviceFault>
    requires taken { IsTakenUp pending head size (map R.seen regions.old) }
    requires kind { head.kind ≡ 2 }
    requires words { HaveFirstWords (map R.seen regions.old) }
    requires finds { FindsBlocks pending.ino found.now (tags_in (map B.seen blocks.old)) }
    requires distinct { AreDistinct
        (numbers_of (both (map R.seen regions.old) (map B.seen blocks.old))) }
    ensures home { BringsHome pending result
        (P.asked power.old) (map R.seen regions.old) (map B.seen blocks.old)
        (P.asked power.new) (map R.seen regions.new) (map B.seen blocks.new) }
    ensures numbers { map B.number blocks.new ≡ map B.number blocks.old }
    ensures cause { HaveCause (map R.faults regions.old ++ map B.faults blocks.old)
        (map R.faults regions.new ++ map B.faults blocks.new) result }
{
    let pieces = zero_pieces(found, pending.ino, head.offset as usize);
    let entry = Entry {
        slot: pending.slot,
        node: pending.node,
        size,
        size_after: head.offset,
    };
    zero_home(regions, blocks, power, entry, &pieces)
}

/// The same of a write, short or long, whose payload is read from its slots into the front of
/// `buffer`. The blocks that it touches are written and then flushed.
pub fn bring_write<R: Region, B: Block, P: Power>(
    regions: &mut [R],
    blocks: &mut [B],
    power: &mut P,
    found: &IndexMap<u64, u32>,
    pending: Pending,
    head: Found,
    size: u64,
    buffer: &mut [u8],
) -> Result<(), DeviceFault>
    requires taken { IsTakenUp pending head size (map R.seen regions.old) }
    requires kind { head.kind ≢ 2 }
    requires whole { HoldsWhole (words_at (map R.seen regions.old) (323 + pending.slot)) }
    requires queue { 323 + (pending.slot / 16 * 16 + 15) < length regions.old }
    requires slots { AreSlots (map R.seen regions.old) }
    requires words { HaveFirstWords (map R.seen regions.old) }
    requires buffer { length buffer.old ≡ 65536 }
    requires finds { FindsBlocks pending.ino found.now (tags_in (map B.seen blocks.old)) }
    requires distinct { AreDistinct
        (numbers_of (both (map R.seen regions.old) (map B.seen blocks.old))) }
    ensures home { BringsHome pending result
        (P.asked power.old) (map R.seen regions.old) (map B.seen blocks.old)
        (P.asked power.new) (map R.seen regions.new) (map B.seen blocks.new) }
    ensures buffer { length buffer.new ≡ 65536 }
    ensures numbers { map B.number blocks.new ≡ map B.number blocks.old }
    ensures cause { HaveCause (map R.faults regions.old ++ map B.faults blocks.old)
        (map R.faults regions.new ++ map B.faults blocks.new) result }
{
    let count = head.count as usize;
    let places = places_of(pending.slot, head.tails);
    read_payload(regions, power, &places, count, buffer)?;
    let pieces = write_pieces(found, pending.ino, head.offset as usize, count);
    let entry = Entry {
        slot: pending.slot,
        node: pending.node,
        size,
        size_after: size.max(head.offset + head.count),
    };
    bring_home(regions, blocks, power, entry, &pieces, &buffer[..count])
}

/// Brings the lowest live entry of a file home: what its slots hold is read, the blocks of its file
/// that it touches are written and flushed, the size word is set where it changes, and the gate is
/// closed. `found` has the block of each tag of the file, and `buffer` room for a payload.
///
/// A crash at any moment leaves what a mount finds the same files in. Fails for a device fault
/// alone.
pub fn replay_entry<R: Region, B: Block, P: Power>(
    regions: &mut [R],
    blocks: &mut [B],
    power: &mut P,
    found: &IndexMap<u64, u32>,
    pending: Pending,
    buffer: &mut [u8],
) -> Result<(), DeviceFault>
    requires node { pending.node < 256 }
    requires ino { pending.ino < 2 ^ 32 }
    requires slot { pending.slot < 2 ^ 32 }
    requires queue { 323 + (pending.slot / 16 * 16 + 15) < length regions.old }
    requires whole { HoldsWhole (words_at (map R.seen regions.old) (323 + pending.slot)) }
    requires slots { AreSlots (map R.seen regions.old) }
    requires words { HaveFirstWords (map R.seen regions.old) }
    requires buffer { length buffer.old ≡ 65536 }
    requires finds { FindsBlocks pending.ino found.now (tags_in (map B.seen blocks.old)) }
    requires distinct { AreDistinct
        (numbers_of (both (map R.seen regions.old) (map B.seen blocks.old))) }
    ensures home { BringsHome pending result
        (P.asked power.old) (map R.seen regions.old) (map B.seen blocks.old)
        (P.asked power.new) (map R.seen regions.new) (map B.seen blocks.new) }
    ensures buffer { length buffer.new ≡ 65536 }
    ensures numbers { map B.number blocks.new ≡ map B.number blocks.old }
    ensures cause { HaveCause (map R.faults regions.old ++ map B.faults blocks.old)
        (map R.faults regions.new ++ map B.faults blocks.new) result }
{
    let head = read_found(regions, power, pending.slot)?;
    let size = read_word(regions, power, SIZES + pending.node, 0)?;
    if head.kind == TRUNCATE {
        return bring_truncate(regions, blocks, power, found, pending, head, size);
    }
    bring_write(regions, blocks, power, found, pending, head, size, buffer)
}
