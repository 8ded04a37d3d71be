//! The job of an entry: which blocks it takes, and what its steps note.

ghost use Rattle.std.specs.Prelude.{◌≡◌, get_or};
ghost use Rattle.cfs_core.specs.declared.flag.Flag.TheVariants.{Off};
ghost use Rattle.cfs_core.specs.Words.{is_lent};
ghost use Rattle.cfs_core.specs.Jobs.{done_after, is_above, is_taken, is_wanted, job_from, last_of, lease_flushed, lease_of, lease_written, next_block, next_job, note_flush, note_write, state_flushed, state_written};

use crate::spans::block_span;
use cfs_core::{Flag, Job, Lease, State, Track};
use cfs_file::{FILE_BLOCKS, overlaps};

/// The flag of a block's tag.
pub(crate) fn tag_of(tags: &[Flag], block: u64) -> Flag
    ensures { result ≡ get_or tags.now block Off }
{
    match tags.get(block as usize) {
        Some(flag) => *flag,
        None => Flag::Off,
    }
}

/// Some job has the block.
pub(crate) fn is_lent(tracks: &[Track], block: u64) -> bool
    ensures { result ≡ is_lent tracks.now block }
{
    tracks.iter().any(|t| t.state.has_block(block))
}

fn is_above(done: Option<u64>, block: u64) -> bool
    ensures { result ≡ is_above done block }
{
    match done {
        Some(last) => last < block,
        None => true,
    }
}

fn is_wanted(tags: &[Flag], track: &Track, done: Option<u64>, block: u64) -> bool
    ensures { result ≡ is_wanted tags.now track.now done block }
{
    block < FILE_BLOCKS
        && is_above(done, block)
        && tag_of(tags, block).is_on()
        && overlaps(&track.span, &block_span(block))
}

fn next_block(tags: &[Flag], track: &Track, done: Option<u64>) -> Option<u64>
    ensures { result ≡ next_block tags.now track.now done }
{
    (0..tags.len() as u64).find(|block| is_wanted(tags, track, done, *block))
}

fn lease_of(block: Option<u64>) -> Option<Lease>
    ensures { result ≡ lease_of block }
{
    match block {
        Some(block) => Some(Lease {
            block,
            written: false,
            flushed: false,
        }),
        None => None,
    }
}

/// The blocks that the next job takes.
pub(crate) fn next_job(tags: &[Flag], track: &Track) -> Job
    ensures { result ≡ next_job tags.now track.now }
{
    if track.applied {
        return Job {
            first: None,
            second: None,
        };
    }
    job_from(tags, track, next_block(tags, track, track.done))
}

fn job_from(tags: &[Flag], track: &Track, first: Option<u64>) -> Job
    ensures { result ≡ job_from tags.now track.now first }
{
    match first {
        Some(block) => Job {
            first: lease_of(Some(block)),
            second: lease_of(next_block(tags, track, Some(block))),
        },
        None => Job {
            first: None,
            second: None,
        },
    }
}

/// A job has the block of the lease.
pub(crate) fn is_taken(tracks: &[Track], lease: Option<Lease>) -> bool
    ensures { result ≡ is_taken tracks.now lease }
{
    match lease {
        Some(lease) => is_lent(tracks, lease.block),
        None => false,
    }
}

fn lease_written(block: u64, ok: bool, lease: Lease) -> Lease
    ensures { result ≡ lease_written block ok lease }
{
    if lease.block == block {
        Lease {
            block: lease.block,
            written: ok,
            flushed: false,
        }
    } else {
        lease
    }
}

fn note_write(block: u64, ok: bool, lease: Option<Lease>) -> Option<Lease>
    ensures { result ≡ note_write block ok lease }
{
    match lease {
        Some(lease) => Some(lease_written(block, ok, lease)),
        None => None,
    }
}

fn lease_flushed(block: u64, lease: Lease) -> Lease
    ensures { result ≡ lease_flushed block lease }
{
    if lease.block == block {
        Lease {
            block: lease.block,
            written: lease.written,
            flushed: lease.written,
        }
    } else {
        lease
    }
}

fn note_flush(block: u64, lease: Option<Lease>) -> Option<Lease>
    ensures { result ≡ note_flush block lease }
{
    match lease {
        Some(lease) => Some(lease_flushed(block, lease)),
        None => None,
    }
}

/// The state after the job wrote a block.
pub(crate) fn state_written(block: u64, ok: bool, state: State) -> State
    ensures { result ≡ state_written block ok state }
{
    match state {
        State::Out(job) => State::Out(Job {
            first: note_write(block, ok, job.first),
            second: note_write(block, ok, job.second),
        }),
        State::Waiting | State::Noop | State::Unserved | State::Closed => state,
    }
}

/// The state after the job flushed a block.
pub(crate) fn state_flushed(block: u64, state: State) -> State
    ensures { result ≡ state_flushed block state }
{
    match state {
        State::Out(job) => State::Out(Job {
            first: note_flush(block, job.first),
            second: note_flush(block, job.second),
        }),
        State::Waiting | State::Noop | State::Unserved | State::Closed => state,
    }
}

/// The last block that is done once the job's blocks are.
pub(crate) fn done_after(done: Option<u64>, state: State) -> Option<u64>
    ensures { result ≡ done_after done state }
{
    match state {
        State::Out(job) => last_of(done, job.first, job.second),
        State::Waiting | State::Noop | State::Unserved | State::Closed => done,
    }
}

fn last_of(done: Option<u64>, first: Option<Lease>, second: Option<Lease>) -> Option<u64>
    ensures { result ≡ last_of done first second }
{
    match (first, second) {
        (_, Some(lease)) => Some(lease.block),
        (Some(lease), None) => Some(lease.block),
        (None, None) => done,
    }
}
