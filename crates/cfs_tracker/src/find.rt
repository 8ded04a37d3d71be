//! What is pending is found by its place.

ghost use Rattle.std.specs.Prelude.{◌≡◌, ◌≤◌, option_copied, option_map, vec_capacity, vec_len};
ghost use Rattle.std.specs.List.{position};
ghost use Rattle.cfs_tracker.specs.Reads.{without_read};
ghost use Rattle.cfs_tracker.specs.View.{doing as doing_now, entry_at, is_at, read_at, with_entry, without};

use crate::{Doing, Pending, Reading};
use std::mem;

/// The entry of a place.
pub(crate) fn entry_of<S>(entries: &[Pending<S>], place: u64) -> Option<&Pending<S>>
    ensures { option_copied result ≡ entry_at entries.now place }
{
    entries.iter().find(|entry| entry.place == place)
}

/// Where the first entry of a place stands.
pub(crate) fn position_of<S>(entries: &[Pending<S>], place: u64) -> Option<usize>
    ensures { result ≡ position (λ e. is_at place e) entries.now }
{
    entries.iter().position(|entry| entry.place == place)
}

/// Puts another doing in the first entry of a place, and gives what it was.
fn redo_in<S: Drop>(entries: &mut [Pending<S>], place: u64, doing: Doing<S>) -> Option<Doing<S>>
    ensures was { result ≡ option_map (λ e. e.doing) (entry_at entries.old place) }
    ensures new { entries.new ≡ with_entry place (doing_now doing) entries.old }
{
    let Some(at) = position_of(entries, place) else {
        return None;
    };
    Some(mem::replace(&mut entries[at].doing, doing))
}

/// The same in a vector.
pub(crate) fn redo<S: Drop>(
    entries: &mut Vec<Pending<S>>,
    place: u64,
    doing: Doing<S>,
) -> Option<Doing<S>>
    ensures was { result ≡ option_map (λ e. e.doing) (entry_at entries.old.items place) }
    ensures items { entries.new.items ≡ with_entry place (doing_now doing) entries.old.items }
    ensures room { vec_capacity entries.new ≡ vec_capacity entries.old }
    ensures long { vec_len entries.new ≡ vec_len entries.old }
{
    redo_in(entries.as_mut_slice(), place, doing)
}

/// Drops the entries of a place.
pub(crate) fn drop_entry<S: Drop>(entries: &mut Vec<Pending<S>>, place: u64)
    ensures items { entries.new.items ≡ without place entries.old.items }
    ensures room { vec_capacity entries.new ≡ vec_capacity entries.old }
    ensures shorter { vec_len entries.new ≤ vec_len entries.old }
{
    entries.retain(|entry| entry.place != place);
}

/// The read of a place.
pub(crate) fn read_of(reads: &[Reading], place: u64) -> Option<Reading>
    ensures { result ≡ read_at reads.now place }
{
    find_read(reads, place).copied()
}

fn find_read(reads: &[Reading], place: u64) -> Option<&Reading>
    ensures { option_copied result ≡ read_at reads.now place }
{
    reads.iter().find(|read| read.place == place)
}

/// Drops the reads of a place.
pub(crate) fn drop_read(reads: &mut Vec<Reading>, place: u64)
    ensures items { reads.new.items ≡ without_read place reads.old.items }
    ensures room { vec_capacity reads.new ≡ vec_capacity reads.old }
    ensures shorter { vec_len reads.new ≤ vec_len reads.old }
{
    reads.retain(|read| read.place != place);
}
