//! A block that a job has.
ghost use Rattle.std.specs.Prelude.{◌≡◌, true, false, [], ◌∷◌, Some, map};
ghost use Rattle.cfs_slot.specs.Reads.{regions_of};
ghost use Rattle.cfs_slot.specs.Regions.{place_of};
ghost use Rattle.cfs_pmem.specs.Faults.{HasCause};

use crate::lent::Lent;
use crate::piece::put_piece;
use cfs_block::Block;
use cfs_file::Span;
use cfs_pmem::{DeviceFault, Power, Region};
use cfs_slot::Live;
use std::snapshot::Snapshot;

/// A block that a job has, and what the job has done to it.
#[derive(Drop)]
pub(crate) struct Tile<B: Block> {
    /// The number of the block in the file, from 0.
    pub(crate) at: u64,
    pub(crate) block: B,
    /// The block as it was when the job came by it.
    pub(crate) taken: Snapshot<B>,
    /// Its part of the request was written.
    pub(crate) written: bool,
    /// It was flushed since.
    pub(crate) flushed: bool,
}

impl<B: Block> Tile<B> {
    ghost use Rattle.cfs_job.specs.Counts.{HasCauseIn};
    ghost use Rattle.cfs_job.specs.Stands.{IsSpanOf, is_touched};
    ghost use Rattle.cfs_job.specs.Steps.{Flushes, Writes};
    ghost use Rattle.cfs_job.specs.Tiles.{tile_of, tile_view};

    /// A block that nothing was done to.
    pub(crate) fn new(lent: Lent<B>) -> Tile<B>
        ensures { tile_of B.seen B.number (Some lent) ≡ Some (tile_view B.seen B.number result) }
    {
        let Lent { at, block } = lent;
        let taken = Snapshot::of(&block);
        Tile {
            at,
            block,
            taken,
            written: false,
            flushed: false,
        }
    }

    /// The block as it is, with its number.
    pub(crate) fn into_lent(self) -> Lent<B>
        ensures at { result.at ≡ self.at }
        ensures block { result.block ≡ self.block }
    {
        let Tile { at, block, .. } = self;
        Lent { at, block }
    }

    /// Writes the request's bytes in this block.
    pub(crate) fn write<R: Region + Drop, P: Power>(
        &mut self,
        request: &mut Live<R>,
        power: &mut P,
        span: Span,
    ) -> Result<(), DeviceFault>
        requires spans { IsSpanOf span (map R.seen (regions_of request.old)) }
        requires touched { is_touched span self.old.at ≡ true }
        requires unwritten { self.old.written ≡ false }
        ensures writes { Writes R.obeys_power B.obeys_power B.keeps_refused
            (map R.seen (regions_of request.old)) span result
            (P.asked power.old) (tile_view B.seen B.number self.old)
            (P.asked power.new) (tile_view B.seen B.number self.new) }
        ensures seen { map R.seen (regions_of request.new) ≡ map R.seen (regions_of request.old) }
        ensures place { place_of request.new ≡ place_of request.old }
        ensures cause { HasCauseIn (map R.faults (regions_of request.old))
            (map R.faults (regions_of request.new)) (B.faults self.old.block ∷ [])
            (B.faults self.new.block ∷ []) result }
    {
        self.flushed = false;
        put_piece(request, &mut self.block, power, span, self.at)?;
        self.written = true;
        Ok(())
    }

    /// Flushes this block.
    pub(crate) fn flush<P: Power>(&mut self, power: &mut P) -> Result<(), DeviceFault>
        requires unflushed { self.old.flushed ≡ false }
        ensures flushes { Flushes B.obeys_power B.keeps_refused result
            (P.asked power.old) (tile_view B.seen B.number self.old)
            (P.asked power.new) (tile_view B.seen B.number self.new) }
        ensures cause { HasCause (B.faults self.old.block) (B.faults self.new.block) result }
    {
        self.block.flush(power)?;
        self.flushed = true;
        Ok(())
    }
}
