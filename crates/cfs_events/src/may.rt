//! When each event may come.

ghost use Rattle.std.specs.Prelude.{◌≡◌, ◌==◌, ◌+◌, ◌<◌, ◌&&◌, max, nat_le, IsTrue};
ghost use Rattle.std.specs.List.{list_all, list_any};
ghost use Rattle.cfs_file.specs.declared.sizes.TheConstants.{FILE_BLOCKS, LONGEST_FILE};
ghost use Rattle.cfs_core.specs.Words.{blocks_needed, is_lent, payload_at};
ghost use Rattle.cfs_core.specs.May.{are_stored, doubt_meets, ends_well, fits, has_live, has_live_in, has_read_in, in_block, is_change, is_in_phase, is_mapped, is_query, is_size_set, is_sync_at, is_sync_request, is_written, is_zero_block, keep_all, keeps_gate, keeps_size, may_dispatch, may_finish, may_flush, may_mark, may_serve, may_skip, may_tag, may_trim, may_write, meets_live, meets_read, must_wait, needed_between, read_alike, stands_at};

use crate::jobs::{is_lent, is_taken, next_job, tag_of};
use crate::medium::{reads, stands};
use crate::spans::{
    block_span, byte_or_zero, end_in, end_needed, end_of, first_needed, part_of, payload, sized,
    start_in, start_of,
};
use crate::tracks::{track_of, tracks_before, tracks_between};
use cfs_core::{Core, Doubt, End, Event, Flag, SizeEnd, Stretch, Track};
use cfs_file::{
    BLOCK_LEN, Bytes, Entry, FILE_BLOCKS, LONGEST_FILE, LONGEST_WRITE, Request, Span, covers,
    overlaps,
};

pub(crate) fn in_block(block: u64, stretch: &Stretch) -> bool
    ensures { result ≡ in_block block stretch.now }
{
    stretch.from / BLOCK_LEN == block
}

fn is_zero_block(core: &Core, block: u64) -> bool
    requires { block < FILE_BLOCKS }
    ensures { result ≡ is_zero_block core.now block }
{
    !is_written(core.loose.as_slice(), block)
        && are_zero(part_of(core.bytes.as_slice(), BLOCK_LEN * block, BLOCK_LEN))
}

fn are_zero(bytes: &[u8]) -> bool
    ensures { result ≡ list_all (λ b. b == 0) bytes.now }
{
    bytes.iter().all(|b| *b == 0)
}

/// The block was written since its last flush.
fn is_written(loose: &[Stretch], block: u64) -> bool
    ensures { result ≡ is_written loose.now block }
{
    loose.iter().any(|s| in_block(block, s))
}

pub(crate) fn may_tag(core: &Core, block: u64) -> bool
    ensures { result ≡ may_tag core.now block }
{
    block < FILE_BLOCKS
        && block < core.tags.len() as u64
        && !tag_of(core.tags.as_slice(), block).is_on()
        && is_zero_block(core, block)
}

pub(crate) fn is_change(request: &Request) -> bool
    ensures { result ≡ is_change request.now }
{
    match request {
        Request::Write { bytes, .. } | Request::Append { bytes } => {
            1 <= bytes.len() && bytes.len() as u64 <= LONGEST_WRITE
        }
        Request::Truncate { .. } => true,
        Request::Read { .. } | Request::Sync => false,
    }
}

/// Whether the file that the request makes is short enough.
pub(crate) fn fits(file: &Bytes, request: &Request) -> bool
    ensures { result ≡ fits file.now request.now }
{
    let len = file.len() as u64;
    match request {
        Request::Write { offset, bytes } => end_fits(len, *offset, bytes.len() as u64),
        Request::Append { bytes } => end_fits(len, len, bytes.len() as u64),
        Request::Truncate { length } => size_fits(*length),
        Request::Read { .. } | Request::Sync => size_fits(len),
    }
}

fn size_fits(size: u64) -> bool
    ensures { result ≡ nat_le size LONGEST_FILE }
{
    size <= LONGEST_FILE
}

/// Whether a file of that size is short enough after a write of so many bytes.
fn end_fits(size: u64, offset: u64, count: u64) -> bool
    ensures { result ≡ nat_le (max size (offset + count)) LONGEST_FILE }
{
    size <= LONGEST_FILE && offset <= LONGEST_FILE && count <= LONGEST_FILE - offset
}

pub(crate) fn is_mapped(tags: &[Flag], span: Span) -> bool
    ensures { result ≡ is_mapped tags.now span }
{
    (first_needed(span)..end_needed(span)).all(|k| tag_of(tags, k).is_on())
}

pub(crate) fn is_query(request: &Request) -> bool
    ensures { result ≡ is_query request.now }
{
    matches!(request, Request::Read { .. } | Request::Sync)
}

fn is_sync_request(request: &Request) -> bool
    ensures { result ≡ is_sync_request request.now }
{
    matches!(request, Request::Sync)
}

fn is_sync_at(log: &[Entry], place: u64) -> bool
    ensures { result ≡ is_sync_at log.now place }
{
    if place == 0 {
        return false;
    }
    match log.get((place - 1) as usize) {
        Some(entry) => is_sync_request(&entry.request),
        None => false,
    }
}

/// The bytes of the entry at a place, from 1.
pub(crate) fn payload_at(log: &[Entry], place: u64) -> &[u8]
    ensures { result.now ≡ payload_at log.now place }
{
    if place == 0 {
        return &[];
    }
    match log.get((place - 1) as usize) {
        Some(entry) => payload(&entry.request),
        None => &[],
    }
}

fn meets_live(tracks: &[Track], place: u64, span: Span) -> bool
    ensures { result ≡ meets_live tracks.now place span }
{
    has_live_in(tracks_before(tracks, place), span)
}

fn meets_read(tracks: &[Track], place: u64, span: Span) -> bool
    ensures { result ≡ meets_read tracks.now place span }
{
    has_read_in(tracks_before(tracks, place), span)
}

fn has_live(tracks: &[Track], place: u64) -> bool
    ensures { result ≡ has_live tracks.now place }
{
    tracks_before(tracks, place)
        .iter()
        .any(|t| t.state.is_live())
}

fn needed_between(tracks: &[Track], place: u64, by: u64, span: Span) -> bool
    ensures { result ≡ needed_between tracks.now place by span }
{
    has_read_in(tracks_between(tracks, place, by), span)
}

fn are_stored(core: &Core, span: Span, bytes: &[u8]) -> bool
    ensures { result ≡ are_stored core.now span bytes.now }
{
    bytes.len() as u64 == end_of(span).saturating_sub(start_of(span))
        && read_alike(core, span, bytes)
}

fn read_alike(core: &Core, span: Span, bytes: &[u8]) -> bool
    ensures { result ≡ read_alike core.now span bytes.now }
{
    let start = start_of(span);
    (start..end_of(span)).all(|p| byte_or_zero(bytes, p.saturating_sub(start)) == reads(core, p))
}

pub(crate) fn may_serve(core: &Core, place: u64, answer: &Option<Bytes>) -> bool
    ensures { result ≡ may_serve core.now place answer.now }
{
    let tracks = core.tracks.as_slice();
    let track = track_of(tracks, place);
    match answer {
        None => track.state.is_unserved(),
        Some(bytes) => {
            track.state.is_unserved()
                && !must_wait(core, place)
                && !is_any_lent(tracks, track.span)
                && are_stored(core, track.span, bytes.as_slice())
        }
    }
}

/// Whether a read or a sync waits for an earlier live entry.
fn must_wait(core: &Core, place: u64) -> bool
    ensures { result ≡ must_wait core.now place }
{
    let tracks = core.tracks.as_slice();
    if is_sync_at(core.log.as_slice(), place) {
        has_live(tracks, place)
    } else {
        meets_live(tracks, place, track_of(tracks, place).span)
    }
}

fn is_any_lent(tracks: &[Track], span: Span) -> bool
    ensures { result ≡ list_any (λ k. is_lent tracks.now k) (blocks_needed span) }
{
    (first_needed(span)..end_needed(span)).any(|k| is_lent(tracks, k))
}

pub(crate) fn may_mark(core: &Core, place: u64, by: u64) -> bool
    ensures { result ≡ may_mark core.now place by }
{
    let tracks = core.tracks.as_slice();
    let earlier = track_of(tracks, place);
    let later = track_of(tracks, by);
    earlier.state.is_waiting()
        && place < by
        && later.state.is_live()
        && covers(&later.span, &earlier.span)
        && !needed_between(tracks, place, by, earlier.span)
}

pub(crate) fn may_dispatch(core: &Core, place: u64) -> bool
    ensures { result ≡ may_dispatch core.now place }
{
    let tracks = core.tracks.as_slice();
    let track = track_of(tracks, place);
    let job = next_job(core.tags.as_slice(), &track);
    track.state.is_waiting()
        && !meets_live(tracks, place, track.span)
        && !meets_read(tracks, place, track.span)
        && !is_taken(tracks, job.first)
        && !is_taken(tracks, job.second)
}

pub(crate) fn may_flush(core: &Core, place: u64, block: u64) -> bool
    ensures { result ≡ may_flush core.now place block }
{
    block < FILE_BLOCKS
        && track_of(core.tracks.as_slice(), place)
            .state
            .has_block(block)
}

pub(crate) fn may_write(core: &Core, place: u64, block: u64, left: &Option<Bytes>) -> bool
    ensures exact { result ≡ may_write core.now place block left.now }
    ensures block { IsTrue result → block < FILE_BLOCKS }
{
    if block >= FILE_BLOCKS {
        return false;
    }
    let span = track_of(core.tracks.as_slice(), place).span;
    match left {
        None => may_flush(core, place, block),
        Some(left) => {
            may_flush(core, place, block)
                && left.len() as u64 == end_in(span, block).saturating_sub(start_in(span, block))
        }
    }
}

fn stands_at(core: &Core, place: u64) -> bool
    ensures { result ≡ stands_at core.now place }
{
    let span = track_of(core.tracks.as_slice(), place).span;
    stands(core, payload_at(core.log.as_slice(), place), span)
}

fn keeps_size(span: Span, size: u64) -> bool
    ensures { result ≡ keeps_size span size }
{
    size == sized(size, span)
}

fn keeps_sizes(core: &Core, span: Span) -> bool
    ensures { result ≡ (keeps_size span core.now.size && keep_all span core.now.sizes) }
{
    keeps_size(span, core.size) && keep_all(span, core.sizes.as_slice())
}

fn keep_all(span: Span, sizes: &[u64]) -> bool
    ensures { result ≡ keep_all span sizes.now }
{
    sizes.iter().all(|s| keeps_size(span, *s))
}

fn is_size_set(core: &Core, span: Span, size: SizeEnd) -> bool
    ensures { result ≡ is_size_set core.now span size }
{
    match size {
        SizeEnd::Set => true,
        SizeEnd::AsBefore | SizeEnd::Either => keeps_sizes(core, span),
    }
}

/// A gate is open in every image only where it was so before.
fn keeps_gate(was: Flag, gate: Flag) -> bool
    ensures { result ≡ keeps_gate was gate }
{
    was.is_on() || !gate.is_on()
}

fn ends_well(core: &Core, place: u64, end: End) -> bool
    ensures { result ≡ ends_well core.now place end }
{
    let track = track_of(core.tracks.as_slice(), place);
    match end {
        End::Retired => track.state.is_through() && stands_at(core, place),
        End::More => track.state.is_through(),
        End::Back {
            size,
            gate,
            applied: true,
        } => {
            keeps_gate(track.gate, gate)
                && stands_at(core, place)
                && (track.applied || is_size_set(core, track.span, size))
        }
        End::Back {
            gate,
            applied: false,
            ..
        } => keeps_gate(track.gate, gate) && !track.applied && gate.is_on(),
    }
}

pub(crate) fn may_finish(core: &Core, place: u64, end: End) -> bool
    ensures { result ≡ may_finish core.now place end }
{
    track_of(core.tracks.as_slice(), place).state.is_out() && ends_well(core, place, end)
}

pub(crate) fn may_skip(core: &Core, place: u64) -> bool
    ensures { result ≡ may_skip core.now place }
{
    track_of(core.tracks.as_slice(), place).state.is_noop()
}

/// An unserved read overlaps the span.
fn has_read_in(tracks: &[Track], span: Span) -> bool
    ensures { result ≡ has_read_in tracks.now span }
{
    tracks
        .iter()
        .any(|t| t.state.is_unserved() && overlaps(&t.span, &span))
}

/// A live entry overlaps the span.
fn has_live_in(tracks: &[Track], span: Span) -> bool
    ensures { result ≡ has_live_in tracks.now span }
{
    tracks
        .iter()
        .any(|t| t.state.is_live() && overlaps(&t.span, &span))
}

fn doubt_meets(doubt: &Option<Doubt>, span: Span) -> bool
    ensures { result ≡ doubt_meets doubt.now span }
{
    match doubt {
        Some(doubt) => overlaps(&doubt.span, &span),
        None => false,
    }
}

pub(crate) fn may_trim(core: &Core, block: u64) -> bool
    ensures { result ≡ may_trim core.now block }
{
    let tracks = core.tracks.as_slice();
    if block >= FILE_BLOCKS {
        return false;
    }
    let span = block_span(block);
    !tag_of(core.tags.as_slice(), block).is_off()
        && core.size <= BLOCK_LEN * block
        && !is_lent(tracks, block)
        && !has_live_in(tracks, span)
        && !doubt_meets(&core.doubt, span)
}

pub(crate) fn is_in_phase(crashed: bool, event: &Event) -> bool
    ensures { result ≡ is_in_phase crashed event.now }
{
    match event {
        Event::Crash { .. } => true,
        Event::Mount => crashed,
        _ => !crashed,
    }
}
