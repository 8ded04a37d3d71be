//! What becomes of an entry and its blocks where its job ends.

ghost use Rattle.std.specs.Prelude.{◌≡◌, ◌↔◌, IsTrue, Some, is_none, option_copied, vec_capacity, vec_len};
ghost use Rattle.cfs_core.specs.Words.{sized};
ghost use Rattle.cfs_tracker.specs.Finish.{again_entry, blocks_in, blocks_out, done_with, home};
ghost use Rattle.cfs_tracker.specs.Finish.{is_last_entry, is_last_of, last_number, number_of};
ghost use Rattle.cfs_tracker.specs.View.{with_entry};

use crate::find::position_of;
use crate::lending::next_cell;
use crate::{Cell, Doing, Pending, Tile};
use cfs_file::Span;

/// The size of a file after an entry of the span, in bytes.
pub(crate) fn sized(size: u64, span: Span) -> u64
    ensures { result ≡ sized size span }
{
    match span {
        Span::Nothing => size,
        Span::Range { to, .. } => size.max(to),
        Span::From { from } => from,
    }
}

/// Whether an entry wants no block behind those of its job.
pub(crate) fn is_last_of<S, B>(cells: &[Cell<B>], entry: Option<&Pending<S>>) -> bool
    ensures { result ≡ is_last_of cells.now (option_copied entry.entry) }
{
    match entry {
        Some(entry) => is_last_entry(cells, entry),
        None => true,
    }
}

fn is_last_entry<S, B>(cells: &[Cell<B>], entry: &Pending<S>) -> bool
    ensures { result ≡ is_last_entry cells.now entry.now }
{
    entry.applied || next_cell(cells, &entry.span, done_with(entry.done, &entry.doing)).is_none()
}

fn done_with<S>(last: Option<u64>, doing: &Doing<S>) -> Option<u64>
    ensures { result ≡ done_with last doing.now }
{
    match doing {
        Doing::Out { first, second } => last_number(last, *first, *second),
        Doing::Waiting(_) | Doing::Marking | Doing::Covered(_) | Doing::Closing => last,
    }
}

fn last_number(last: Option<u64>, first: Option<u64>, second: Option<u64>) -> Option<u64>
    ensures { result ≡ last_number last first second }
{
    match (first, second) {
        (_, Some(block)) => Some(block),
        (Some(block), None) => Some(block),
        (None, None) => last,
    }
}

/// The number of a block.
pub(crate) fn number_of<B>(tile: &Option<Tile<B>>) -> Option<u64>
    ensures { result ≡ number_of tile.now }
{
    match tile {
        Some(tile) => Some(tile.block),
        None => None,
    }
}

/// Whether an entry is out with the blocks of these numbers.
pub(crate) fn is_out_with<S>(entry: Option<&Pending<S>>, one: Option<u64>, two: Option<u64>) -> bool
    ensures { IsTrue result ↔ (blocks_out (option_copied entry.entry) ≡ Some (one, two)) }
{
    match entry {
        Some(entry) => is_doing_with(&entry.doing, one, two),
        None => false,
    }
}

fn is_doing_with<S>(doing: &Doing<S>, one: Option<u64>, two: Option<u64>) -> bool
    ensures { IsTrue result ↔ (blocks_in doing.now ≡ Some (one, two)) }
{
    match doing {
        Doing::Out { first, second } => *first == one && *second == two,
        Doing::Waiting(_) | Doing::Marking | Doing::Covered(_) | Doing::Closing => false,
    }
}

/// Puts both blocks of a job back.
pub(crate) fn bring_both<B: Drop>(
    cells: &mut Vec<Cell<B>>,
    first: Option<Tile<B>>,
    second: Option<Tile<B>>,
)
    ensures items { cells.new.items ≡ home second (home first cells.old.items) }
    ensures long { vec_len cells.new ≡ vec_len cells.old }
{
    bring_home(cells, first);
    bring_home(cells, second);
}

fn bring_home<B: Drop>(cells: &mut Vec<Cell<B>>, tile: Option<Tile<B>>)
    ensures items { cells.new.items ≡ home tile cells.old.items }
    ensures long { vec_len cells.new ≡ vec_len cells.old }
{
    let Some(tile) = tile else {
        return;
    };
    if (tile.block as usize) < cells.len() {
        cells[tile.block as usize] = Cell::Home(tile.home);
    }
}

/// The first entry of a place waits again, and has done these blocks; it is applied, if it was or
/// is to be now.
pub(crate) fn wait_again<S: Drop>(
    entries: &mut Vec<Pending<S>>,
    place: u64,
    slots: S,
    applied: bool,
    done: (Option<u64>, Option<u64>),
)
    ensures items { entries.new.items ≡
        with_entry place (again_entry slots applied done.0 done.1) entries.old.items }
    ensures room { vec_capacity entries.new ≡ vec_capacity entries.old }
    ensures long { vec_len entries.new ≡ vec_len entries.old }
{
    wait_again_in(entries.as_mut_slice(), place, slots, applied, done);
}

fn wait_again_in<S: Drop>(
    entries: &mut [Pending<S>],
    place: u64,
    slots: S,
    applied: bool,
    done: (Option<u64>, Option<u64>),
)
    ensures { entries.new ≡
        with_entry place (again_entry slots applied done.0 done.1) entries.old }
{
    let Some(at) = position_of(entries, place) else {
        return;
    };
    put_again(&mut entries[at], slots, applied, done);
}

fn put_again<S: Drop>(
    entry: &mut Pending<S>,
    slots: S,
    applied: bool,
    done: (Option<u64>, Option<u64>),
)
    ensures { entry.new ≡ again_entry slots applied done.0 done.1 entry.old }
{
    entry.applied = applied || entry.applied;
    entry.done = last_number(entry.done, done.0, done.1);
    entry.doing = Doing::Waiting(slots);
}
