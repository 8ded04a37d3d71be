//! How a lock is made and closed, and how its passes are split and joined.
ghost use Rattle.std.specs.Prelude.{◌≡◌, ◌≢◌, ◌<◌, ◌≤◌, ◌+◌, [], ◌∷◌, IfErr, IfOk, IsSome, Some};
ghost use Rattle.cfs_lock.specs.Log.{IsNewTo};
ghost use Rattle.cfs_lock.specs.Passes.{IsNewElse, IsOutside, IsPassOf, IsSame, KeepsAll, knows};
ghost use Rattle.cfs_lock.specs.Views.{Finds, cut_left, cut_right, joined, next_number, opening};

use super::TreeLock;
use crate::pass::Pass;
use crate::recorded::Recorded;
use crate::rule::{Cut, Glue, Origin};
use atomic_table::{Refused, Table};
use std::alloc::{AllocError, AllocFailed, Global};
use std::snapshot::Snapshot;

/// A list of one slot, in which the value lies.
fn slots_of<X>(alloc: Global, value: X) -> Result<Vec<Option<X>>, (X, AllocError)>
    ensures made { IfOk result (λ slots. slots.items ≡ Some value ∷ []) }
    ensures refused { IfErr result (λ refused. refused.0 ≡ value) }
{
    let mut slots = Vec::new(alloc);
    if let Err(AllocFailed { value: refused }) = slots.push(Some(value)) {
        return Err((only_of(refused, slots), AllocError));
    }
    Ok(slots)
}

/// The value of a slot beside a list that is empty by now.
fn only_of<X>(slot: Option<X>, slots: Vec<Option<X>>) -> X
    requires some { IsSome slot }
    requires empty { slots.items ≡ [] }
    ensures { slot ≡ Some result }
{
    slots.destroy_empty();
    match slot {
        Some(value) => value,
        None => unreachable!(),
    }
}

impl<X: Recorded> TreeLock<X> {
    /// A lock round a value that knows none of these passes, and the first pass, whose number is 0.
    /// At `Err` there was no memory, and the value comes back.
    pub fn new(
        alloc: Global,
        value: X,
        passes: u32,
    ) -> Result<(TreeLock<X>, Pass<X>), (X, AllocError)>
        requires some { 1 ≤ passes }
        requires unused { IsNewTo X.log X.part passes value }
        ensures own { IfOk result (λ made. IsPassOf made.0 made.1 × IsOutside made.1) }
        ensures first { IfOk result (λ made. (made.1.number ≡ 0) × (made.1.left + 1 ≡ passes)) }
        ensures knows { IfOk result (λ made. knows made.1 ≡ opening (X.log value) passes) }
        ensures refused { IfErr result (λ refused. refused.0 ≡ value) }
    {
        let words = [0, 0, value.count()];
        let origin = Origin {
            base: Snapshot::of(&value),
            passes,
        };
        let slots = slots_of(alloc, value)?;
        match Table::new(alloc, &words, slots, &origin) {
            Ok((table, seat)) => Ok((
                TreeLock { table },
                Pass {
                    number: 0,
                    left: passes - 1,
                    given: 1,
                    held: 1,
                    inside: false,
                    seat,
                },
            )),
            Err(Refused { mut slots }) => {
                let Some(slot) = slots.pop() else {
                    unreachable!()
                };
                Err((only_of(slot, slots), AllocError))
            }
        }
    }

    /// A pass with the next number, which has seen what this one has.
    pub fn split(&self, pass: &mut Pass<X>) -> Pass<X>
        requires own { IsPassOf self.now pass.old }
        requires outside { IsOutside pass.old }
        requires some { 0 < pass.old.left }
        ensures own { IsPassOf self.now pass.new × IsPassOf self.now result }
        ensures outside { IsOutside pass.new × IsOutside result }
        ensures one_less { (pass.new.number ≡ pass.old.number)
            × (pass.new.left + 1 ≡ pass.old.left) }
        ensures next { (result.number ≡ next_number (knows pass.old)) × (result.left ≡ 0) }
        ensures kept { knows pass.new ≡ cut_left (knows pass.old) }
        ensures knows { knows result ≡ cut_right (knows pass.old) }
    {
        let seat = self.table.shared.split_seat::<Cut>(&mut pass.seat);
        let number = pass.given;
        let passes = pass.given + pass.left;
        pass.left -= 1;
        pass.given += 1;
        Pass {
            number,
            left: 0,
            given: passes,
            held: 1,
            inside: false,
            seat,
        }
    }

    /// Takes in what another pass knows, with its number and those joined to it.
    pub fn join(&self, pass: &mut Pass<X>, other: Pass<X>)
        requires own { IsPassOf self.now pass.old × IsPassOf self.now other }
        requires outside { IsOutside pass.old × IsOutside other }
        requires later { other.number ≢ 0 }
        ensures same { IsSame pass.old pass.new }
        ensures outside { IsOutside pass.new }
        ensures knows { knows pass.new ≡ joined (knows pass.old) (knows other) }
    {
        let Pass {
            number: _,
            left: _,
            given: _,
            held,
            inside: _,
            seat,
        } = other;
        self.table.shared.join_seat::<Glue>(&mut pass.seat, seat);
        pass.held = pass.held.saturating_add(held);
    }

    /// Ends the lock and gives its value. It refuses exactly where another pass stands.
    pub fn close(self, pass: Pass<X>) -> Result<X, (TreeLock<X>, Pass<X>)>
        requires own { IsPassOf self pass }
        requires outside { IsOutside pass }
        ensures all { IfOk result (λ value. KeepsAll pass) }
        ensures found { IfOk result (λ value. Finds X.log X.part (knows pass) value) }
        ensures others { IfOk result (λ value. IsNewElse X.log X.part (knows pass) value) }
        ensures stands { IfErr result (λ refused. ¬ KeepsAll pass) }
        ensures back { IfErr result (λ refused. (refused.0 ≡ self) × (refused.1 ≡ pass)) }
    {
        if pass.held != pass.given {
            return Err((self, pass));
        }
        let Pass {
            number: _,
            left: _,
            given: _,
            held: _,
            inside: _,
            seat,
        } = pass;
        let TreeLock { table } = self;
        let mut closed = table.close_with(seat);
        let value = closed.take(0);
        closed.free();
        match value {
            Some(value) => Ok(value),
            None => unreachable!(),
        }
    }
}
