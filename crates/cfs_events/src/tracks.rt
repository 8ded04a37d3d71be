//! What is kept of the logged requests.

ghost use Rattle.std.specs.Prelude.{◌≡◌, ◌-◌, take, drop, get_or};
ghost use Rattle.cfs_core.specs.Words.{blank, track};

use cfs_core::{Flag, State, Track};
use cfs_file::Span;

/// What stands where no request was logged.
pub(crate) fn blank_track() -> Track
    ensures { result ≡ blank }
{
    Track {
        grant: 0,
        span: Span::Nothing,
        state: State::Closed,
        applied: false,
        done: None,
        gate: Flag::Off,
        mark: Flag::Off,
    }
}

/// The track of a place, from 1.
pub(crate) fn track_of(tracks: &[Track], place: u64) -> Track
    ensures { result ≡ track tracks.now place }
{
    if place == 0 {
        return blank_track();
    }
    track_at(tracks, place - 1)
}

/// The track at an index, from 0.
pub(crate) fn track_at(tracks: &[Track], at: u64) -> Track
    ensures { result ≡ get_or tracks.now at blank }
{
    match tracks.get(at as usize) {
        Some(track) => *track,
        None => blank_track(),
    }
}

/// The tracks of the places before one.
pub(crate) fn tracks_before(tracks: &[Track], place: u64) -> &[Track]
    ensures { result.now ≡ take (place - 1) tracks.now }
{
    let count = tracks.len().min(place.saturating_sub(1) as usize);
    &tracks[..count]
}

/// The tracks of the places between two.
pub(crate) fn tracks_between(tracks: &[Track], place: u64, by: u64) -> &[Track]
    ensures { result.now ≡ drop place (take (by - 1) tracks.now) }
{
    let before = tracks_before(tracks, by);
    let count = before.len().min(place as usize);
    &before[count..]
}
