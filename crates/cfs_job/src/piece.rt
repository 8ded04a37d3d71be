//! A request's bytes in one block of its file.
ghost use Rattle.std.specs.Prelude.{◌≡◌, ◌-◌, ◌<◌, ◌≤◌, true, [], ◌∷◌, IsTrue, length, map, OnOk, OnErr};
ghost use Rattle.std.specs.List.{flat_map};
ghost use Rattle.std.proofs.Math.ListN.{replicate};
ghost use Rattle.cfs_core.specs.Words.{end_in, piece_in, start_in};
ghost use Rattle.cfs_pmem.specs.Images.{devices_of};
ghost use Rattle.cfs_block.specs.BlockImages.{IsRangedFrom, zeros};
ghost use Rattle.cfs_slot.specs.Payload.{AsksOnly, DoesReads, HaveCause};
ghost use Rattle.cfs_slot.specs.Reads.{regions_of};
ghost use Rattle.cfs_slot.specs.Regions.{place_of};
ghost use Rattle.cfs_job.specs.Counts.{HasCauseIn};
ghost use Rattle.cfs_job.specs.Ops.{WorksOn, count_in, devices_seen, piece_reads, place_in, write_ops};
ghost use Rattle.cfs_job.specs.Stands.{IsSpanOf, is_touched};
ghost use Rattle.cfs_job.specs.Views.{payload_seen};

use cfs_block::Block;
use cfs_file::{BLOCK_LEN, FILE_BLOCKS, Span, overlaps};
use cfs_pmem::{DeviceFault, Power, Region};
use cfs_slot::Live;

/// How many bytes a block has.
const AREA: usize = cfs_block::BLOCK_LEN;

/// The first position of a span in a block of the file.
fn start_in(span: Span, at: u64) -> u64
    requires { at < 256 }
    ensures { result ≡ start_in span at }
{
    match span {
        Span::Nothing => BLOCK_LEN * at,
        Span::Range { from, .. } | Span::From { from } => from.max(BLOCK_LEN * at),
    }
}

/// The position behind the last one of a span in a block of the file.
fn end_in(span: Span, at: u64) -> u64
    requires { at < 256 }
    ensures { result ≡ end_in span at }
{
    match span {
        Span::Nothing => BLOCK_LEN * at,
        Span::Range { to, .. } => to.min(BLOCK_LEN * at + BLOCK_LEN),
        Span::From { .. } => BLOCK_LEN * at + BLOCK_LEN,
    }
}

/// Whether a block of a file has one of the positions.
pub(crate) fn is_touched(span: Span, at: u64) -> bool
    ensures { result ≡ is_touched span at }
{
    if FILE_BLOCKS <= at {
        return false;
    }
    let from = BLOCK_LEN * at;
    let to = from + BLOCK_LEN;
    overlaps(&span, &Span::Range { from, to })
}

/// The bytes of a block, all zero.
fn blank() -> [u8; AREA]
    ensures { result ≡ zeros }
{
    [0; AREA]
}

/// Reads the bytes that a request has in a block of the file, over zeros: those of a truncate are
/// zeros. Each word of the slots that holds one of them is read once.
fn fetch<R: Region + Drop, P: Power>(
    request: &mut Live<R>,
    power: &mut P,
    span: Span,
    at: u64,
    out: &mut [u8],
) -> Result<(), DeviceFault>
    requires spans { IsSpanOf span (map R.seen (regions_of request.old)) }
    requires touched { is_touched span at ≡ true }
    requires zeros { out.old ≡ replicate (count_in span at) 0 }
    ensures bytes { OnOk result (out.new ≡
        piece_in (payload_seen (map R.seen (regions_of request.old))) span at) }
    ensures size { length out.new ≡ count_in span at }
    ensures seen { map R.seen (regions_of request.new) ≡ map R.seen (regions_of request.old) }
    ensures place { place_of request.new ≡ place_of request.old }
    ensures does { IsTrue R.obeys_power →
        DoesReads (piece_reads (devices_seen (map R.seen (regions_of request.old))) span at) result
        (P.asked power.old) (P.asked power.new) }
    ensures some { OnErr result (0 <
        length (piece_reads (devices_seen (map R.seen (regions_of request.old))) span at)) }
    ensures asks { AsksOnly (flat_map devices_of (map R.seen (regions_of request.old)))
        (P.asked power.old) (P.asked power.new) }
    ensures cause { HaveCause (map R.faults (regions_of request.old))
        (map R.faults (regions_of request.new)) result }
{
    match span {
        Span::Range { from, .. } => {
            let skip = (start_in(span, at) - from) as usize;
            request.read_payload(power, skip, out)
        }
        Span::Nothing | Span::From { .. } => Ok(()),
    }
}

/// Writes the bytes that a request has in a block of its file into that block: reads them from the
/// slots, and then makes one write.
pub(crate) fn put_piece<R: Region + Drop, B: Block, P: Power>(
    request: &mut Live<R>,
    block: &mut B,
    power: &mut P,
    span: Span,
    at: u64,
) -> Result<(), DeviceFault>
    requires spans { IsSpanOf span (map R.seen (regions_of request.old)) }
    requires touched { is_touched span at ≡ true }
    ensures works { WorksOn R.obeys_power B.obeys_power B.keeps_refused
        (IsRangedFrom (B.seen block.old) (place_in span at) (count_in span at))
        (flat_map devices_of (map R.seen (regions_of request.old)))
        (write_ops (map R.seen (regions_of request.old)) span at) result
        (P.asked power.old) (B.seen block.old) (P.asked power.new) (B.seen block.new) }
    ensures seen { map R.seen (regions_of request.new) ≡ map R.seen (regions_of request.old) }
    ensures place { place_of request.new ≡ place_of request.old }
    ensures number { B.number block.new ≡ B.number block.old }
    ensures cause { HasCauseIn (map R.faults (regions_of request.old))
        (map R.faults (regions_of request.new)) (B.faults block.old ∷ [])
        (B.faults block.new ∷ []) result }
{
    let start = start_in(span, at);
    let count = (end_in(span, at) - start) as usize;
    let mut area = blank();
    fetch(request, power, span, at, &mut area[..count])?;
    block.write(power, (start - BLOCK_LEN * at) as u32, &area[..count])
}
