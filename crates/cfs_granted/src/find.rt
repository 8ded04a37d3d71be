//! Pending reads are kept, found by their grants, and dropped.

ghost use Rattle.std.specs.Prelude.{◌≡◌, ◌<◌, [], ◌∷◌, ◌++◌, find, vec_capacity, vec_len};
ghost use Rattle.cfs_granted.specs.Readers.{is_under, without_reader};

use crate::reader::Reader;

/// The first of these that is under a grant.
pub(crate) fn first_under(readers: &[Reader], number: u64) -> Option<Reader>
    ensures { result ≡ find (λ r. is_under number r) readers.now }
{
    for reader in readers {
        if reader.grant == number {
            return Some(*reader);
        }
    }
    None
}

/// Keeps one more, for which there is room.
pub(crate) fn keep_reader(readers: &mut Vec<Reader>, reader: Reader)
    requires { vec_len readers.old < vec_capacity readers.old }
    ensures { readers.new.items ≡ readers.old.items ++ reader ∷ [] }
{
    match readers.push(reader) {
        Ok(()) => {}
        Err(_) => unreachable!(),
    }
}

/// Drops what is at a place.
pub(crate) fn drop_reader(readers: &mut Vec<Reader>, place: u64)
    ensures items { readers.new.items ≡ without_reader place readers.old.items }
    ensures room { vec_capacity readers.new ≡ vec_capacity readers.old }
{
    readers.retain(|reader| reader.place != place);
}
