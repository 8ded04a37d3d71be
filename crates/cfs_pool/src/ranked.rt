ghost use Rattle.std.specs.Prelude.{◌==◌};
ghost use Rattle.std.proofs.Common.{rules};
ghost use Rattle.std.specs.Cmp.{partial_order_from_own_ties};
ghost use Rattle.std.specs.Cmp.Rules.{comparing};
ghost use Rattle.std.specs.Ordering.{as_partial_cmp, flip_args, nat_cmp, on};

use crate::numbered::Numbered;
use std::cmp::Ordering;

/// One of several numbered items: the lower number is the greater, since a heap gives its greatest.
#[derive(Drop)]
pub struct Ranked<T: Numbered> {
    pub item: T,
}

impl<T: Numbered> PartialEq for Ranked<T> {
    ghost eq = { on (λ r. T.number r.item) (λ a b. a == b) };

    ghost laws = { Prim.search (comparing, rules) };

    fn eq(&self, other: &Ranked<T>) -> bool {
        self.item.number() == other.item.number()
    }
}

impl<T: Numbered> Eq for Ranked<T> {
    ghost laws = { Prim.search (comparing, rules) };
}

impl<T: Numbered> Ord for Ranked<T> {
    ghost cmp = { flip_args (on (λ r. T.number r.item) nat_cmp) };

    ghost total = { Prim.search (comparing, rules) };

    ghost matches_partial_cmp = { Prim.search (comparing, rules) };

    ghost matches_eq = { Prim.search (comparing, rules) };

    fn cmp(&self, other: &Ranked<T>) -> Ordering {
        other.item.number().cmp(&self.item.number())
    }
}

impl<T: Numbered> PartialOrd for Ranked<T> {
    ghost partial_cmp = { as_partial_cmp (flip_args (on (λ r. T.number r.item) nat_cmp)) };

    ghost laws = { partial_order_from_own_ties
        (Prim.search (comparing, rules)) (Prim.search (comparing, rules)) };

    fn partial_cmp(&self, other: &Ranked<T>) -> Option<Ordering> {
        Some(self.cmp(other))
    }
}
