//! A change is sent out with a job.

ghost use Rattle.std.specs.Prelude.{◌≡◌, option_map, vec_capacity, vec_len};
ghost use Rattle.cfs_tracker.specs.Dispatch.{sent};
ghost use Rattle.cfs_tracker.specs.View.{entry_at, with_entry};

use crate::find::position_of;
use crate::{Doing, Pending};
use std::mem;

fn send_entry<S: Drop>(entry: &mut Pending<S>, first: Option<u64>, second: Option<u64>) -> Doing<S>
    ensures was { result ≡ entry.old.doing }
    ensures new { entry.new ≡ sent first second entry.old }
{
    entry.passed = 0;
    mem::replace(&mut entry.doing, Doing::Out { first, second })
}

fn send_in<S: Drop>(
    entries: &mut [Pending<S>],
    place: u64,
    first: Option<u64>,
    second: Option<u64>,
) -> Option<Doing<S>>
    ensures was { result ≡ option_map (λ e. e.doing) (entry_at entries.old place) }
    ensures new { entries.new ≡ with_entry place (sent first second) entries.old }
{
    let Some(at) = position_of(entries, place) else {
        return None;
    };
    Some(send_entry(&mut entries[at], first, second))
}

/// The first entry of a place is out with these blocks. Gives what was being done with it.
pub(crate) fn send<S: Drop>(
    entries: &mut Vec<Pending<S>>,
    place: u64,
    first: Option<u64>,
    second: Option<u64>,
) -> Option<Doing<S>>
    ensures was { result ≡ option_map (λ e. e.doing) (entry_at entries.old.items place) }
    ensures items { entries.new.items ≡ with_entry place (sent first second) entries.old.items }
    ensures room { vec_capacity entries.new ≡ vec_capacity entries.old }
    ensures long { vec_len entries.new ≡ vec_len entries.old }
{
    send_in(entries.as_mut_slice(), place, first, second)
}
