ghost use Rattle.std.specs.Prelude.{◌≡◌, ◌≢◌, ◌+◌, ◌<◌, length, min};
ghost use Rattle.cfs_lock.specs.Stages.{code_of, in_hand, stage_code};
ghost use Rattle.cfs_lock.specs.Views.{first_number};

use crate::view::View;
use atomic_table::Seat;

/// A right to enter a lock, under a number that no other pass of the lock has.
///
/// A pass that is dropped stands for good: its lock is never closed. One that is dropped inside
/// keeps all others out.
#[derive(Drop)]
pub struct Pass<X> {
    pub(crate) number: u32,
    /// How many numbers it may still give.
    pub(crate) left: u32,
    /// How many numbers were given, where it may give some, and else how many there are.
    pub(crate) given: u32,
    /// How many numbers it keeps: its own and those joined to it.
    pub(crate) held: u32,
    pub(crate) inside: bool,
    pub(crate) seat: Seat<Option<X>, View<X>>,
    pub ghost numbered: { number ≡ first_number seat.me.0.books },
    pub ghost booked: { 0 < length seat.me.0.books },
    pub ghost counted: { held ≡ min (length seat.me.0.books) 4294967295 },
    pub ghost remaining: { left ≡ seat.me.0.left },
    pub ghost giving: { given + left ≡ seat.me.0.bound },
    pub ghost narrow: { seat.me.0.bound < 4294967296 },
    pub ghost first_gives: { number ≢ 0 → left ≡ 0 },
    pub ghost staged: { stage_code seat.me.0.stage ≡ code_of inside },
    pub ghost handed: { seat.me.1 ≡ in_hand inside },
}

impl<X> Pass<X> {
    /// The number under which it makes its entries.
    pub fn number(&self) -> u32
        ensures { result ≡ self.now.number }
    {
        self.number
    }

    /// How many passes may still be split from it.
    pub fn left(&self) -> u32
        ensures { result ≡ self.now.left }
    {
        self.left
    }

    /// Whether it is between an `enter` and the `leave` that belongs to it.
    pub fn inside(&self) -> bool
        ensures { result ≡ self.now.inside }
    {
        self.inside
    }
}
