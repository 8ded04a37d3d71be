//! The rule of the lock, and what its steps tell. These types are for the proofs alone.
ghost use Rattle.cfs_lock.specs.Rule.{Kept, counted, drew, freed, looked};
ghost use Rattle.cfs_lock.specs.Views.{cut_left, cut_right, joined, opening, spent};

use crate::recorded::Recorded;
use crate::view::View;
use atomic_table::{Join, Play, Split, TableRule};
use std::snapshot::Snapshot;

/// The value when the lock was made, and how many numbers there are.
#[derive(Drop)]
pub struct Origin<X> {
    pub base: Snapshot<X>,
    pub passes: u32,
}

pub struct Rule;

impl<X: Recorded> TableRule<Option<X>, View<X>, Origin<X>> for Rule {
    ghost holds = { λ origin. Kept X.log X.part (X.log origin.base.value) origin.passes };

    ghost first = { λ origin. opening (X.log origin.base.value) origin.passes };
}

/// A ticket is drawn.
pub struct Draw;

impl<X: Recorded> Play<Option<X>, View<X>> for Draw {
    ghost then = { drew X.log X.part };
}

/// Where the ticket is served, the value is found and taken.
pub struct Look;

impl<X: Recorded> Play<Option<X>, View<X>> for Look {
    ghost then = { looked X.log X.part };
}

/// The entries are counted, and the value goes home.
pub struct Count;

impl<X: Recorded> Play<Option<X>, View<X>> for Count {
    ghost then = { counted X.log X.part };
}

/// The next ticket is served.
pub struct Serve;

impl<X: Recorded> Play<Option<X>, View<X>> for Serve {
    ghost then = { freed X.log X.part };
}

/// A pass gives a number away.
pub struct Cut;

impl<X> Split<View<X>> for Cut {
    ghost left = { cut_left };

    ghost right = { cut_right };
}

/// A pass takes in what another knows.
pub struct Glue;

impl<X> Join<View<X>> for Glue {
    ghost both = { joined };

    ghost spent = { spent };
}
