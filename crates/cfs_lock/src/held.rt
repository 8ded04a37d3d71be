ghost use Rattle.std.specs.Prelude.{◌≡◌};
ghost use Rattle.std.specs.Borrow.{Lends, sem};

/// The value behind a lock, in the hands of who entered. Give it back by `leave`: where it is
/// dropped, its pass stays inside for good.
#[derive(Drop)]
pub struct Held<X> {
    pub(crate) value: X,
}

impl<X> Held<X> {
    ghost use Rattle.cfs_lock.specs.contracts.held.Held.{the_row};
    ghost use Rattle.cfs_lock.specs.Lending.{with_value};

    /// The value, to be read and changed.
    pub fn state(&mut self) -> &mut X
        ensures* writes_back { sem 𝓛
            (Lends (the_row X.row) X.row self.entry result (with_value self.old)) }
        ensures shows { result.now ≡ self.old.value }
    {
        &mut self.value
    }
}
