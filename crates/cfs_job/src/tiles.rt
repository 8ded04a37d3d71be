//! A block that a job may have.
ghost use Rattle.std.specs.Prelude.{◌≡◌, true, false, Some, map};
ghost use Rattle.cfs_slot.specs.Payload.{HaveCause};
ghost use Rattle.cfs_slot.specs.Reads.{regions_of};
ghost use Rattle.cfs_slot.specs.Regions.{place_of};
ghost use Rattle.cfs_job.specs.Counts.{HasCauseIn, faults_in};
ghost use Rattle.cfs_job.specs.Tiles.{lent_in};
ghost use Rattle.cfs_job.specs.Stands.{IsSpanOf, is_touched_by};
ghost use Rattle.cfs_job.specs.Steps.{Flushes, IsStepOn, Writes, is_unflushed, is_unwritten};
ghost use Rattle.cfs_job.specs.Tiles.{tile_in, tile_of};

use crate::lent::Lent;
use crate::tile::Tile;
use cfs_block::Block;
use cfs_file::Span;
use cfs_pmem::{DeviceFault, Power, Region};
use cfs_slot::Live;

/// The block that a job is given, nothing done to it.
pub(crate) fn taken<B: Block>(lent: Option<Lent<B>>) -> Option<Tile<B>>
    ensures { tile_in B.seen B.number result ≡ tile_of B.seen B.number lent }
{
    match lent {
        Some(lent) => Some(Tile::new(lent)),
        None => None,
    }
}

/// The block of a job, as it is.
pub(crate) fn given<B: Block>(tile: Option<Tile<B>>) -> Option<Lent<B>>
    ensures { result ≡ lent_in tile }
{
    match tile {
        Some(tile) => Some(tile.into_lent()),
        None => None,
    }
}

/// Whether it is there and was not written.
pub(crate) fn is_unwritten<B: Block>(tile: &Option<Tile<B>>) -> bool
    ensures { result ≡ is_unwritten (tile_in B.seen B.number tile.now) }
{
    match tile {
        Some(tile) => !tile.written,
        None => false,
    }
}

/// Whether it is there and was not flushed.
pub(crate) fn is_unflushed<B: Block>(tile: &Option<Tile<B>>) -> bool
    ensures { result ≡ is_unflushed (tile_in B.seen B.number tile.now) }
{
    match tile {
        Some(tile) => !tile.flushed,
        None => false,
    }
}

/// Writes the request's bytes in a block that was not written.
pub(crate) fn write_in<R: Region + Drop, B: Block, P: Power>(
    tile: &mut Option<Tile<B>>,
    request: &mut Live<R>,
    power: &mut P,
    span: Span,
) -> Result<(), DeviceFault>
    requires spans { IsSpanOf span (map R.seen (regions_of request.old)) }
    requires touched { is_touched_by span (tile_in B.seen B.number tile.old) ≡ true }
    requires unwritten { is_unwritten (tile_in B.seen B.number tile.old) ≡ true }
    ensures writes { IsStepOn (λ was now. Writes R.obeys_power B.obeys_power B.keeps_refused
        (map R.seen (regions_of request.old)) span result (P.asked power.old) was
        (P.asked power.new) now)
        (tile_in B.seen B.number tile.old) (λ now. Some now) (tile_in B.seen B.number tile.new) }
    ensures seen { map R.seen (regions_of request.new) ≡ map R.seen (regions_of request.old) }
    ensures place { place_of request.new ≡ place_of request.old }
    ensures cause { HasCauseIn (map R.faults (regions_of request.old))
        (map R.faults (regions_of request.new)) (faults_in B.faults tile.old)
        (faults_in B.faults tile.new) result }
{
    match tile {
        Some(tile) => tile.write(request, power, span),
        None => unreachable!(),
    }
}

/// Flushes a block that was not flushed.
pub(crate) fn flush_in<B: Block, P: Power>(
    tile: &mut Option<Tile<B>>,
    power: &mut P,
) -> Result<(), DeviceFault>
    requires unflushed { is_unflushed (tile_in B.seen B.number tile.old) ≡ true }
    ensures flushes { IsStepOn (λ was now. Flushes B.obeys_power B.keeps_refused result
        (P.asked power.old) was (P.asked power.new) now)
        (tile_in B.seen B.number tile.old) (λ now. Some now) (tile_in B.seen B.number tile.new) }
    ensures cause { HaveCause (faults_in B.faults tile.old) (faults_in B.faults tile.new) result }
{
    match tile {
        Some(tile) => tile.flush(power),
        None => unreachable!(),
    }
}
