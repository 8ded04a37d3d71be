//! A job: one live request, the blocks that it is written into, and its device steps.
ghost use Rattle.std.specs.Prelude.{◌≡◌, ◌≤◌, ◌-◌, true, false, [], Some, is_ok, map, OnOk, OnErr};
ghost use Rattle.cfs_slot.specs.Reads.{regions_of};
ghost use Rattle.cfs_slot.specs.Regions.{place_of};
ghost use Rattle.cfs_job.specs.Stands.{IsDurable, IsFull, IsOpenFor, IsSound, IsSpanFor};
ghost use Rattle.cfs_job.specs.Stands.{ReadsAsNoted, StaysOutside, are_touched};
ghost use Rattle.cfs_job.specs.Steps.{one_if};
ghost use Rattle.cfs_job.specs.Views.{anew, payload_seen};
ghost use Rattle.cfs_job.specs.Tiles.{tile_in, tile_of};

use crate::lent::Lent;
use crate::piece::is_touched;
use crate::tile::Tile;
use crate::tiles::{flush_in, given, is_unflushed, is_unwritten, taken, write_in};
use crate::turn::Turn;
use cfs_block::Block;
use cfs_file::Span;
use cfs_pmem::{DeviceFault, Power, Region};
use cfs_slot::Live;

/// One live request with its slots, and at most two blocks of its file. Its steps need no lock and
/// take no memory.
#[derive(Drop)]
pub struct Job<R: Region, B: Block> {
    pub(crate) ino: u64,
    pub(crate) request: Live<R>,
    pub(crate) span: Span,
    pub(crate) first: Option<Tile<B>>,
    pub(crate) second: Option<Tile<B>>,
    ghost sound: { ∥ IsSound (map R.seen (regions_of request)) (place_of request) span
        (tile_in B.seen B.number first) (tile_in B.seen B.number second) ∥₁ },
}

/// 1 where the test holds, and else 0.
fn one_if(test: bool) -> u32
    ensures value { result ≡ one_if test }
    ensures few { result ≤ 1 }
{
    if test { 1 } else { 0 }
}

impl<R: Region + Drop, B: Block + Drop> Job<R, B> {
    ghost use Rattle.cfs_job.specs.Counts.{HasCauseIn};
    ghost use Rattle.cfs_job.specs.Jobs.{block_faults, first_in, job_view, request_in, second_in, slot_faults, view_of_parts};
    ghost use Rattle.cfs_job.specs.Steps.{MakesTurn, core_job, next_turn, noted, steps_left};

    /// Whether a job of a request with these positions can have these blocks: the span touches
    /// them, and the first is below the second.
    pub fn fits(span: Span, first: &Option<Lent<B>>, second: &Option<Lent<B>>) -> bool
        ensures { result ≡ are_touched span (tile_of B.seen B.number first.now)
            (tile_of B.seen B.number second.now) }
    {
        match (first, second) {
            (None, None) => true,
            (None, Some(_)) => false,
            (Some(first), None) => is_touched(span, first.at),
            (Some(first), Some(second)) => {
                is_touched(span, first.at) && is_touched(span, second.at) && first.at < second.at
            }
        }
    }

    /// A job of a request of the file with this inode number. Its blocks are some of those that the
    /// span touches, the first below the second. Where it has one, the span has the request's
    /// positions, and the request's gate is open whatever a crash leaves.
    pub fn new(
        ino: u64,
        request: Live<R>,
        span: Span,
        first: Option<Lent<B>>,
        second: Option<Lent<B>>,
    ) -> Job<R, B>
        requires spans { IsSpanFor first span (map R.seen (regions_of request)) }
        requires touched { are_touched span (tile_of B.seen B.number first)
            (tile_of B.seen B.number second) ≡ true }
        requires opened { IsOpenFor first (map R.seen (regions_of request)) (place_of request) }
        ensures { job_view R.seen B.seen B.number result ≡
            view_of_parts R.seen B.seen B.number ino request span first second }
    {
        Job {
            ino,
            request,
            span,
            first: taken(first),
            second: taken(second),
        }
    }

    /// The inode number of the request's file.
    pub fn ino(&self) -> u64
        ensures { result ≡ (job_view R.seen B.seen B.number self.now).ino }
    {
        self.ino
    }

    /// The place of the request.
    pub fn place(&self) -> u64
        ensures { result ≡ (job_view R.seen B.seen B.number self.now).place }
    {
        self.request.place()
    }

    /// The next step.
    pub fn next(&self) -> Turn
        ensures { result ≡ next_turn (job_view R.seen B.seen B.number self.now) }
    {
        if is_unwritten(&self.first) {
            Turn::WriteFirst
        } else if is_unwritten(&self.second) {
            Turn::WriteSecond
        } else if is_unflushed(&self.first) {
            Turn::FlushFirst
        } else if is_unflushed(&self.second) {
            Turn::FlushSecond
        } else {
            Turn::Nothing
        }
    }

    /// How many steps are left.
    pub fn left(&self) -> u32
        ensures { result ≡ steps_left (job_view R.seen B.seen B.number self.now) }
    {
        one_if(is_unwritten(&self.first))
            + one_if(is_unwritten(&self.second))
            + (one_if(is_unflushed(&self.first)) + one_if(is_unflushed(&self.second)))
    }

    /// Makes the next step; with none left it does nothing. A write first reads the words of the
    /// slots that hold its bytes, each once; a truncate writes zeros. A step that failed is still
    /// the next one, and may be made again. Refuses for a device fault alone.
    pub fn apply_step<P: Power>(&mut self, power: &mut P) -> Result<(), DeviceFault>
        ensures makes { MakesTurn R.obeys_power B.obeys_power B.keeps_refused
            (next_turn (job_view R.seen B.seen B.number self.old)) result
            (P.asked power.old) (job_view R.seen B.seen B.number self.old)
            (P.asked power.new) (job_view R.seen B.seen B.number self.new) }
        // The core notes the same of the job behind the event of this step.
        ensures notes { core_job (job_view R.seen B.seen B.number self.new) ≡
            noted (next_turn (job_view R.seen B.seen B.number self.old)) (is_ok result)
            (job_view R.seen B.seen B.number self.old) }
        ensures ok { OnOk result (steps_left (job_view R.seen B.seen B.number self.new) ≡
            steps_left (job_view R.seen B.seen B.number self.old) - 1) }
        ensures err { OnErr result (steps_left (job_view R.seen B.seen B.number self.new) ≡
            steps_left (job_view R.seen B.seen B.number self.old)) }
        ensures cause { HasCauseIn (slot_faults R.faults self.old) (slot_faults R.faults self.new)
            (block_faults B.faults self.old) (block_faults B.faults self.new) result }
    {
        match self.next() {
            Turn::WriteFirst => { write_in(&mut self.first, &mut self.request, power, self.span) }
            Turn::WriteSecond => { write_in(&mut self.second, &mut self.request, power, self.span) }
            Turn::FlushFirst => flush_in(&mut self.first, power),
            Turn::FlushSecond => flush_in(&mut self.second, power),
            Turn::Nothing => Ok(()),
        }
    }

    /// The request and the blocks, as they are, whatever was done to them.
    pub fn into_parts(self) -> (Live<R>, Option<Lent<B>>, Option<Lent<B>>)
        ensures request { result.0 ≡ request_in self }
        ensures first { result.1 ≡ first_in self }
        ensures second { result.2 ≡ second_in self }
        // They are what a new job of them would be.
        ensures view { view_of_parts R.seen B.seen B.number self.ino result.0 self.span result.1
            result.2 ≡ anew (job_view R.seen B.seen B.number self) }
    {
        let Job {
            request,
            first,
            second,
            ..
        } = self;
        (request, given(first), given(second))
    }

    /// What holds of a job before its first step, between two steps and behind its last one,
    /// whichever of them failed. It does nothing.
    pub fn stands(&self)
        // A job that has a block has its gate open whatever a crash leaves.
        ensures opened { IsOpenFor (first_in self.now)
            (job_view R.seen B.seen B.number self.now).slots
            (job_view R.seen B.seen B.number self.now).place }
        // Its blocks have all of their bytes.
        ensures full_first { IsFull (job_view R.seen B.seen B.number self.now).first }
        ensures full_second { IsFull (job_view R.seen B.seen B.number self.now).second }
        // They differ from what they were only at the request's own positions.
        ensures outside_first { StaysOutside (job_view R.seen B.seen B.number self.now).span
            (job_view R.seen B.seen B.number self.now).first }
        ensures outside_second { StaysOutside (job_view R.seen B.seen B.number self.now).span
            (job_view R.seen B.seen B.number self.now).second }
        // What was written reads as the request's bytes.
        ensures reads_first { ReadsAsNoted
            (payload_seen (job_view R.seen B.seen B.number self.now).slots)
            (job_view R.seen B.seen B.number self.now).span
            (job_view R.seen B.seen B.number self.now).first }
        ensures reads_second { ReadsAsNoted
            (payload_seen (job_view R.seen B.seen B.number self.now).slots)
            (job_view R.seen B.seen B.number self.now).span
            (job_view R.seen B.seen B.number self.now).second }
        // When no step is left these positions hold the request's bytes whatever a crash leaves.
        ensures durable_first { steps_left (job_view R.seen B.seen B.number self.now) ≡ 0 →
            IsDurable (payload_seen (job_view R.seen B.seen B.number self.now).slots)
            (job_view R.seen B.seen B.number self.now).span
            (job_view R.seen B.seen B.number self.now).first }
        ensures durable_second { steps_left (job_view R.seen B.seen B.number self.now) ≡ 0 →
            IsDurable (payload_seen (job_view R.seen B.seen B.number self.now).slots)
            (job_view R.seen B.seen B.number self.now).span
            (job_view R.seen B.seen B.number self.now).second }
    {}
}
