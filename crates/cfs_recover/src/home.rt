//! A live entry is brought home.
ghost use Rattle.std.specs.Prelude.{◌≡◌, ◌+◌, ◌<◌, ◌++◌, ℕ, List, length, map, get_or, OnOk};
ghost use Rattle.cfs_file.specs.declared.request.Request.{Request};
ghost use Rattle.cfs_pmem.specs.AllMoments.{AreDistinct};
ghost use Rattle.cfs_pmem.specs.Images.{Seen, WordStep};
ghost use Rattle.cfs_pmem.specs.Objects.{all_devices};
ghost use Rattle.cfs_block.specs.Devices.{numbers_of};
ghost use Rattle.cfs_slot.specs.Payload.{HaveCause};
ghost use Rattle.cfs_home.specs.Calls.{MountMoments};
ghost use Rattle.cfs_home.specs.Disks.{Disk, File};
ghost use Rattle.cfs_recover.specs.Begins.{Begins, Stands, both};
ghost use Rattle.cfs_recover.specs.declared.blocks.TheConstants.{ZEROS};
ghost use Rattle.cfs_recover.specs.Brought.{TakesUp, with_blocks};
ghost use Rattle.cfs_recover.specs.Pieces.{ArePieces, LiesWithin, with_flushes, with_writes};
ghost use Rattle.cfs_recover.specs.Pieces.{with_writes_through};
ghost use Rattle.cfs_recover.specs.Settled.{settled, with_entry_home};
ghost use Rattle.cfs_recover.specs.Words.{HaveFirstWords, lengths_of};

use crate::blocks::{ZEROS, flush_pieces, write_pieces, write_through};
use crate::ends::settle;
use crate::entry::Entry;
use crate::piece::Piece;
use cfs_block::Block;
use cfs_pmem::{DeviceFault, Power, Region};

/// Writes the pieces of a live entry and then flushes their blocks. Where the entry is the lowest
/// of its file, a crash at any moment leaves what a mount finds the same files in.
pub fn bring_bytes<B: Block, P: Power>(
    blocks: &mut [B],
    power: &mut P,
    pieces: &[Piece],
    bytes: &[u8],
) -> Result<(), DeviceFault>
    requires within { (k : ℕ) (d : Piece) → k < length pieces.now →
        LiesWithin (length blocks.old) (length bytes.now) (get_or pieces.now k d) }
    requires distinct { AreDistinct (all_devices (map B.seen blocks.old)) }
    ensures ok { OnOk result (map B.seen blocks.new ≡
        with_flushes pieces.now (with_writes pieces.now bytes.now (map B.seen blocks.old))) }
    ensures moments { (files : List File) (file : File) (at : ℕ) (entry : ℕ × Request)
        (rest : List (ℕ × Request)) (start first : Disk) (regions : List (Seen WordStep)) →
        Begins files file at entry rest start first regions (map B.seen blocks.old) →
        ArePieces file.ino entry.1 first.blocks pieces.now →
        MountMoments files start
        (P.asked power.old) (both regions (map B.seen blocks.old))
        (P.asked power.new) (both regions (map B.seen blocks.new)) }
    ensures devices { all_devices (map B.seen blocks.new) ≡ all_devices (map B.seen blocks.old) }
    ensures numbers { map B.number blocks.new ≡ map B.number blocks.old }
    ensures cause { HaveCause (map B.faults blocks.old) (map B.faults blocks.new) result }
{
    write_pieces(blocks, power, pieces, bytes)?;
    flush_pieces(blocks, power, pieces)
}

/// The same block by block: each piece is flushed before the next one is written.
pub fn bring_through<B: Block, P: Power>(
    blocks: &mut [B],
    power: &mut P,
    pieces: &[Piece],
    bytes: &[u8],
) -> Result<(), DeviceFault>
    requires within { (k : ℕ) (d : Piece) → k < length pieces.now →
        LiesWithin (length blocks.old) (length bytes.now) (get_or pieces.now k d) }
    requires distinct { AreDistinct (all_devices (map B.seen blocks.old)) }
    ensures ok { OnOk result (map B.seen blocks.new ≡
        with_writes_through pieces.now bytes.now (map B.seen blocks.old)) }
    ensures moments { (files : List File) (file : File) (at : ℕ) (entry : ℕ × Request)
        (rest : List (ℕ × Request)) (start first : Disk) (regions : List (Seen WordStep)) →
        Begins files file at entry rest start first regions (map B.seen blocks.old) →
        ArePieces file.ino entry.1 first.blocks pieces.now →
        MountMoments files start
        (P.asked power.old) (both regions (map B.seen blocks.old))
        (P.asked power.new) (both regions (map B.seen blocks.new)) }
    ensures devices { all_devices (map B.seen blocks.new) ≡ all_devices (map B.seen blocks.old) }
    ensures numbers { map B.number blocks.new ≡ map B.number blocks.old }
    ensures cause { HaveCause (map B.faults blocks.old) (map B.faults blocks.new) result }
{
    write_through(blocks, power, pieces, bytes)
}

/// Brings the lowest live entry of a file home: its pieces are written and then flushed, the size
/// word is set where it changes, and the gate is closed. A crash at any moment leaves what a mount
/// finds the same files in; behind `Ok` the entry is no longer live, and all else stands.
pub fn bring_home<R: Region, B: Block, P: Power>(
    regions: &mut [R],
    blocks: &mut [B],
    power: &mut P,
    entry: Entry,
    pieces: &[Piece],
    bytes: &[u8],
) -> Result<(), DeviceFault>
    requires node { entry.node < 256 }
    requires place { 323 + entry.slot < length regions.old }
    requires words { HaveFirstWords (map R.seen regions.old) }
    requires within { (k : ℕ) (d : Piece) → k < length pieces.now →
        LiesWithin (length blocks.old) (length bytes.now) (get_or pieces.now k d) }
    requires distinct { AreDistinct
        (numbers_of (both (map R.seen regions.old) (map B.seen blocks.old))) }
    ensures regions { OnOk result
        (map R.seen regions.new ≡ with_entry_home entry (map R.seen regions.old)) }
    ensures blocks { OnOk result (map B.seen blocks.new ≡
        with_flushes pieces.now (with_writes pieces.now bytes.now (map B.seen blocks.old))) }
    ensures moments { (files : List File) (file : File) (live : ℕ × Request)
        (rest : List (ℕ × Request)) (start first : Disk) →
        TakesUp files file entry live rest start first bytes.now pieces.now
        (map R.seen regions.old) (map B.seen blocks.old) →
        MountMoments files start
        (P.asked power.old) (both (map R.seen regions.old) (map B.seen blocks.old))
        (P.asked power.new) (both (map R.seen regions.new) (map B.seen blocks.new)) }
    ensures stands { OnOk result ((files : List File) (file : File) (live : ℕ × Request)
        (rest : List (ℕ × Request)) (start first : Disk) →
        TakesUp files file entry live rest start first bytes.now pieces.now
        (map R.seen regions.old) (map B.seen blocks.old) →
        Stands files start (settled entry (with_blocks (map B.seen blocks.new) first))
        (map R.seen regions.new) (map B.seen blocks.new)) }
    ensures lengths { lengths_of (map R.seen regions.new) ≡ lengths_of (map R.seen regions.old) }
    ensures devices { numbers_of (both (map R.seen regions.new) (map B.seen blocks.new))
        ≡ numbers_of (both (map R.seen regions.old) (map B.seen blocks.old)) }
    ensures numbers { map B.number blocks.new ≡ map B.number blocks.old }
    ensures cause { HaveCause (map R.faults regions.old ++ map B.faults blocks.old)
        (map R.faults regions.new ++ map B.faults blocks.new) result }
{
    bring_bytes(blocks, power, pieces, bytes)?;
    settle(regions, power, entry)
}

/// Brings a truncate home, where it is the lowest live entry of a file: zeros are written to its
/// pieces, each flushed before the next, the size word is set where it changes, and the gate is
/// closed. It says what `bring_home` says.
pub fn zero_home<R: Region, B: Block, P: Power>(
    regions: &mut [R],
    blocks: &mut [B],
    power: &mut P,
    entry: Entry,
    pieces: &[Piece],
) -> Result<(), DeviceFault>
    requires node { entry.node < 256 }
    requires place { 323 + entry.slot < length regions.old }
    requires words { HaveFirstWords (map R.seen regions.old) }
    requires within { (k : ℕ) (d : Piece) → k < length pieces.now →
        LiesWithin (length blocks.old) 4096 (get_or pieces.now k d) }
    requires distinct { AreDistinct
        (numbers_of (both (map R.seen regions.old) (map B.seen blocks.old))) }
    ensures regions { OnOk result
        (map R.seen regions.new ≡ with_entry_home entry (map R.seen regions.old)) }
    ensures blocks { OnOk result (map B.seen blocks.new ≡
        with_writes_through pieces.now ZEROS (map B.seen blocks.old)) }
    ensures moments { (files : List File) (file : File) (live : ℕ × Request)
        (rest : List (ℕ × Request)) (start first : Disk) →
        TakesUp files file entry live rest start first ZEROS pieces.now
        (map R.seen regions.old) (map B.seen blocks.old) →
        MountMoments files start
        (P.asked power.old) (both (map R.seen regions.old) (map B.seen blocks.old))
        (P.asked power.new) (both (map R.seen regions.new) (map B.seen blocks.new)) }
    ensures stands { OnOk result ((files : List File) (file : File) (live : ℕ × Request)
        (rest : List (ℕ × Request)) (start first : Disk) →
        TakesUp files file entry live rest start first ZEROS pieces.now
        (map R.seen regions.old) (map B.seen blocks.old) →
        Stands files start (settled entry (with_blocks (map B.seen blocks.new) first))
        (map R.seen regions.new) (map B.seen blocks.new)) }
    ensures lengths { lengths_of (map R.seen regions.new) ≡ lengths_of (map R.seen regions.old) }
    ensures devices { numbers_of (both (map R.seen regions.new) (map B.seen blocks.new))
        ≡ numbers_of (both (map R.seen regions.old) (map B.seen blocks.old)) }
    ensures numbers { map B.number blocks.new ≡ map B.number blocks.old }
    ensures cause { HaveCause (map R.faults regions.old ++ map B.faults blocks.old)
        (map R.faults regions.new ++ map B.faults blocks.new) result }
{
    bring_through(blocks, power, pieces, &ZEROS)?;
    settle(regions, power, entry)
}
