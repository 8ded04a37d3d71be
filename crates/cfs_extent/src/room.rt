ghost use Rattle.std.specs.Prelude.{◌≡◌, ◌<◌, ◌≤◌, insert, vec_capacity, vec_len};

/// Puts an item into a list that has room for it, so that it takes no memory.
pub(crate) fn insert_within<T>(list: &mut Vec<T>, at: usize, item: T)
    requires within { at ≤ vec_len list.old }
    requires room { vec_len list.old < vec_capacity list.old }
    ensures items { list.new.items ≡ insert list.old.items at item }
    ensures room { vec_capacity list.new ≡ vec_capacity list.old }
{
    match list.insert(at, item) {
        Ok(()) => {}
        Err(_) => unreachable!(),
    }
}
