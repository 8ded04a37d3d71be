//! What each event changes.

ghost use Rattle.std.specs.Prelude.{◌≡◌, ◌<◌, filter, map, not, OnOk, IfOk};
ghost use Rattle.cfs_core.specs.After.{block_written, crashed_to, finished, flushed, logged, marked, more_to_come, mounted, put_back, retired, sure_doubt, sure_track, sure_tracks, with_doubt, with_size, with_state, with_tag, with_track, written};
ghost use Rattle.cfs_core.specs.May.{in_block};
ghost use Rattle.cfs_core.specs.Words.{flag_of, track};
ghost use Rattle.cfs_file.specs.declared.sizes.TheConstants.{FILE_BLOCKS};

use crate::jobs::{done_after, state_flushed, state_written};
use crate::may::{in_block, payload_at};
use crate::medium::bit_or_false;
use crate::spans::{end_in, piece_in, sized, start_in};
use crate::tracks::{track_at, track_of};
use cfs_core::{Core, End, Flag, Image, Items, SizeEnd, State, Stretch, Track};
use cfs_file::{Bytes, Entry, FILE_BLOCKS, NoMemory};
use std::alloc::{AllocError, Global};

/// Puts the track at a place, from 1.
pub(crate) fn put_track(core: &mut Core, place: u64, track: Track)
    ensures { core.new ≡ with_track core.old place track }
{
    let at = place.saturating_sub(1) as usize;
    if at < core.tracks.len() {
        core.tracks.set(at, track);
    }
}

/// Puts the state at a place, from 1.
pub(crate) fn put_state(core: &mut Core, place: u64, state: State)
    ensures { core.new ≡ with_state core.old place state }
{
    let mut track = track_of(core.tracks.as_slice(), place);
    track.state = state;
    put_track(core, place, track);
}

/// Puts the flag at a block's tag.
pub(crate) fn put_tag(core: &mut Core, block: u64, flag: Flag)
    ensures { core.new ≡ with_tag core.old block flag }
{
    let at = block as usize;
    if at < core.tags.len() {
        core.tags.set(at, flag);
    }
}

/// Logs the entry, with what is kept of it.
pub(crate) fn log_entry(core: &mut Core, entry: Entry, track: Track) -> Result<(), NoMemory>
    ensures { OnOk result (core.new ≡ logged core.old entry track) }
{
    core.log.push(entry)?;
    core.tracks.push(track)?;
    Ok(())
}

pub(crate) fn marked(track: Track, kept: bool) -> Track
    ensures { result ≡ marked track kept }
{
    let mut track = track;
    if kept {
        track.state = State::Noop;
        track.gate = Flag::Unsure;
        track.mark = Flag::On;
    } else {
        track.mark = Flag::Unsure;
    }
    track
}

/// The bytes are written into a block by the job of a place.
fn write_block(
    core: &mut Core,
    place: u64,
    block: u64,
    bytes: &[u8],
    ok: bool,
) -> Result<(), NoMemory>
    requires { block < FILE_BLOCKS }
    ensures { OnOk result (core.new ≡ written core.old place block bytes.now ok) }
{
    let track = track_of(core.tracks.as_slice(), place);
    let from = start_in(track.span, block);
    let to = end_in(track.span, block);
    put_state(core, place, state_written(block, ok, track.state));
    core.bytes.put(from, bytes)?;
    core.loose.push(Stretch { from, to })?;
    Ok(())
}

pub(crate) fn write_part(
    alloc: Global,
    core: &mut Core,
    place: u64,
    block: u64,
    left: &Option<Bytes>,
) -> Result<(), NoMemory>
    requires { block < FILE_BLOCKS }
    ensures { OnOk result (core.new ≡ block_written core.old place block left.now) }
{
    match left {
        Some(left) => write_block(core, place, block, left.as_slice(), false),
        None => {
            let span = track_of(core.tracks.as_slice(), place).span;
            let bytes = payload_at(core.log.as_slice(), place);
            let piece = piece_in(alloc, bytes, span, block)?;
            write_block(core, place, block, piece.as_slice(), true)
        }
    }
}

pub(crate) fn flush_block(
    alloc: Global,
    core: &mut Core,
    place: u64,
    block: u64,
    ok: bool,
) -> Result<(), NoMemory>
    ensures { OnOk result (core.new ≡ flushed core.old place block ok) }
{
    if !ok {
        return Ok(());
    }
    let state = track_of(core.tracks.as_slice(), place).state;
    put_state(core, place, state_flushed(block, state));
    core.loose = still_loose(alloc, core.loose.as_slice(), block)?;
    Ok(())
}

/// The stretches of the other blocks.
fn still_loose(alloc: Global, loose: &[Stretch], block: u64) -> Result<Items<Stretch>, NoMemory>
    ensures { IfOk result (λ rest. rest ≡ filter (λ s. not (in_block block s)) loose.now) }
{
    let rest = loose
        .iter()
        .copied()
        .filter(|s| !in_block(block, s))
        .collect(alloc)?;
    Ok(Items::from_vec(rest))
}

fn put_size(alloc: Global, core: &mut Core, end: SizeEnd, size: u64) -> Result<(), NoMemory>
    ensures { OnOk result (core.new ≡ with_size core.old end size) }
{
    match end {
        SizeEnd::AsBefore => {}
        SizeEnd::Set => {
            core.size = size;
            core.sizes = Items::new(alloc);
        }
        SizeEnd::Either => {
            core.sizes.push(core.size)?;
            core.size = size;
        }
    }
    Ok(())
}

pub(crate) fn retired(track: Track) -> Track
    ensures { result ≡ retired track }
{
    let mut track = track;
    track.state = State::Closed;
    track.gate = Flag::Off;
    track
}

pub(crate) fn finish(alloc: Global, core: &mut Core, place: u64, end: End) -> Result<(), NoMemory>
    ensures { OnOk result (core.new ≡ finished core.old place (track core.old.tracks place) end) }
{
    let track = track_of(core.tracks.as_slice(), place);
    let size = sized(core.size, track.span);
    match end {
        End::Retired => {
            put_track(core, place, retired(track));
            put_size(alloc, core, SizeEnd::Set, size)
        }
        End::More => {
            put_track(core, place, sent_back(track));
            Ok(())
        }
        End::Back {
            size: end,
            gate,
            applied,
        } => {
            put_track(core, place, put_back(track, gate, applied));
            put_size(alloc, core, end, size)
        }
    }
}

fn sent_back(track: Track) -> Track
    ensures { result ≡ more_to_come track }
{
    let mut track = track;
    track.done = done_after(track.done, track.state);
    track.state = State::Waiting;
    track
}

fn put_back(track: Track, gate: Flag, applied: bool) -> Track
    ensures { result ≡ put_back track gate applied }
{
    let mut track = track;
    track.state = State::Waiting;
    track.gate = gate;
    track.applied = applied;
    track
}

fn sure_track(track: Track, gate: bool, mark: bool) -> Track
    ensures { result ≡ sure_track track gate mark }
{
    let mut track = track;
    track.gate = Flag::sure(gate);
    track.mark = Flag::sure(mark);
    track
}

/// The gate of the request in doubt has that value in every image.
fn put_doubt_gate(core: &mut Core, gate: bool)
    ensures { core.new ≡ with_doubt core.old (sure_doubt core.old.doubt gate) }
{
    if let Some(doubt) = &mut core.doubt {
        doubt.gate = Flag::sure(gate);
    }
}

fn sure_tags(alloc: Global, tags: &[bool]) -> Result<Vec<Flag>, AllocError>
    ensures { IfOk result (λ flags. flags.items ≡ map (λ bit. flag_of bit) tags.now) }
{
    tags.iter().map(|bit| Flag::sure(*bit)).collect(alloc)
}

fn sure_tracks(
    alloc: Global,
    tracks: &[Track],
    gates: &[bool],
    marks: &[bool],
) -> Result<Items<Track>, NoMemory>
    ensures { IfOk result (λ sure. sure ≡ sure_tracks tracks.now gates.now marks.now) }
{
    let sure = sure_list(alloc, tracks, gates, marks)?;
    Ok(Items::from_vec(sure))
}

fn sure_list(
    alloc: Global,
    tracks: &[Track],
    gates: &[bool],
    marks: &[bool],
) -> Result<Vec<Track>, AllocError>
    ensures { IfOk result (λ sure. sure.items ≡ sure_tracks tracks.now gates.now marks.now) }
{
    (0..tracks.len() as u64)
        .map(|k| {
            sure_track(
                track_at(tracks, k),
                bit_or_false(gates, k),
                bit_or_false(marks, k),
            )
        })
        .collect(alloc)
}

pub(crate) fn crash(alloc: Global, core: &mut Core, image: &Image) -> Result<(), NoMemory>
    ensures { OnOk result (core.new ≡ crashed_to core.old image.now) }
{
    let tags = sure_tags(alloc, image.tags.as_slice())?;
    put_doubt_gate(core, image.doubt);
    core.tracks = sure_tracks(
        alloc,
        core.tracks.as_slice(),
        image.gates.as_slice(),
        image.marks.as_slice(),
    )?;
    core.size = image.size;
    core.sizes = Items::new(alloc);
    core.tags = Items::from_vec(tags);
    core.bytes = Bytes::from_slice(alloc, image.bytes.as_slice())?;
    core.loose = Items::new(alloc);
    core.crashed = true;
    Ok(())
}

pub(crate) fn mount(alloc: Global, core: &mut Core, found: Bytes) -> Result<(), NoMemory>
    ensures { OnOk result (core.new ≡ mounted core.old found) }
{
    let base = Bytes::from_slice(alloc, found.as_slice())?;
    core.size = base.len() as u64;
    core.base = base;
    core.log = Items::new(alloc);
    core.tracks = Items::new(alloc);
    core.doubt = None;
    core.sizes = Items::new(alloc);
    core.bytes = found;
    core.loose = Items::new(alloc);
    core.crashed = false;
    Ok(())
}
