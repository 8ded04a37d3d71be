//! Grants are looked up by their numbers.
ghost use Rattle.std.specs.Prelude.{◌≡◌};
ghost use Rattle.std.specs.List.{position};
ghost use Rattle.cfs_granted.specs.Rows.{first_number, is_asker, is_numbered, is_writer, may_ask, may_write, stands};

use cfs_grants::Grant;

/// Whether a grant of this number stands.
pub(crate) fn stands(rows: &[Option<Grant>], number: u64) -> bool
    ensures { result ≡ stands number rows.now }
{
    rows.iter().any(|row| is_numbered(row, number))
}

/// Whether a grant of this number writes.
pub(crate) fn may_write(rows: &[Option<Grant>], number: u64) -> bool
    ensures { result ≡ may_write number rows.now }
{
    rows.iter().any(|row| is_writer(row, number))
}

/// Whether a grant of this number reads, or for a sync whether one stands.
pub(crate) fn may_ask(rows: &[Option<Grant>], is_sync: bool, number: u64) -> bool
    ensures { result ≡ may_ask is_sync number rows.now }
{
    rows.iter().any(|row| is_asker(row, is_sync, number))
}

/// The queue of the grant of this number.
pub(crate) fn queue_of(rows: &[Option<Grant>], number: u64) -> Option<usize>
    ensures { result ≡ position (λ row. is_numbered number row) rows.now }
{
    rows.iter().position(|row| is_numbered(row, number))
}

/// The number of the grant with the lowest queue.
pub(crate) fn first_number(rows: &[Option<Grant>]) -> Option<u64>
    ensures { result ≡ first_number rows.now }
{
    for row in rows {
        if let Some(grant) = row {
            return Some(grant.number);
        }
    }
    None
}

fn is_numbered(row: &Option<Grant>, number: u64) -> bool
    ensures { result ≡ is_numbered number row.now }
{
    match row {
        Some(grant) => grant.number == number,
        None => false,
    }
}

fn is_writer(row: &Option<Grant>, number: u64) -> bool
    ensures { result ≡ is_writer number row.now }
{
    match row {
        Some(grant) => grant.number == number && grant.writes,
        None => false,
    }
}

fn is_asker(row: &Option<Grant>, is_sync: bool, number: u64) -> bool
    ensures { result ≡ is_asker is_sync number row.now }
{
    match row {
        Some(grant) => grant.number == number && (is_sync || grant.reads),
        None => false,
    }
}
