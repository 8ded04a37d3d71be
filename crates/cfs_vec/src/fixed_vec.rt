//! The vector and its methods.
ghost use Rattle.std.specs.Prelude.{◌≡◌, ◌==◌, ◌+◌, ◌<◌, ◌≤◌, [], ◌∷◌, ◌++◌, length, reverse, slice_index_or, IfNone};
ghost use Rattle.std.specs.Option.{option_to_list};
ghost use Rattle.cfs_vec.specs.Cells.{AreFull};

use arrayvec::ArrayVec;

/// At most `N` values, in order. They lie in the value itself, so that no call takes memory.
#[derive(Drop)]
pub struct FixedVec<T, const N: usize> {
    /// The values, a `Some` of each.
    pub cells: ArrayVec<Option<T>, N>,
    pub ghost full: { AreFull cells.items },
}

impl<T: Drop, const N: usize> FixedVec<T, N> {
    ghost use Rattle.cfs_vec.specs.Items.{items_of};

    /// No values.
    #[inline]
    pub fn new() -> Self
        ensures { items_of result ≡ [] }
    {
        FixedVec {
            cells: ArrayVec::new(),
        }
    }

    /// How many values there are.
    #[inline]
    pub fn len(&self) -> usize
        ensures value { result ≡ length (items_of self.now) }
        ensures fits { result ≤ N }
    {
        self.cells.len()
    }

    /// Whether there are none.
    #[inline]
    pub fn is_empty(&self) -> bool
        ensures { result ≡ (length (items_of self.now) == 0) }
    {
        self.cells.is_empty()
    }

    /// Appends a value. There must be room.
    #[inline]
    pub fn push(&mut self, item: T)
        requires { length (items_of self.old) < N }
        ensures { items_of self.new ≡ items_of self.old ++ item ∷ [] }
    {
        self.cells.push(Some(item));
    }

    /// Removes and returns the last value, if there is one.
    #[inline]
    pub fn pop(&mut self) -> Option<T>
        ensures items { items_of self.old ≡ items_of self.new ++ option_to_list result }
        ensures none { IfNone result (items_of self.old ≡ []) }
    {
        match self.cells.pop() {
            Some(cell) => cell,
            None => None,
        }
    }

    /// Turns the order of the values round.
    #[inline]
    pub fn reverse(&mut self)
        ensures items { items_of self.new ≡ reverse (items_of self.old) }
        ensures fits { length (items_of self.new) ≤ N }
    {
        self.cells.as_mut_slice().reverse();
    }

    /// The value at `index`.
    #[inline]
    pub fn at(&self, index: usize) -> &T
        requires { index < length (items_of self.now) }
        ensures { result.now ≡ slice_index_or (items_of self.now) index result.now }
    {
        match &self.cells.as_slice()[index] {
            Some(item) => item,
            None => unreachable!(),
        }
    }
}
