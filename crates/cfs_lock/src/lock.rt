ghost use Rattle.std.specs.Prelude.{◌≡◌, ◌<◌, ℕ, [], ◌∷◌, None, IfSome, IfNone, length};
ghost use Rattle.cfs_lock.specs.Log.{Grows};
ghost use Rattle.cfs_lock.specs.Rule.{word_of};
ghost use Rattle.cfs_lock.specs.Views.{Finds, at_stage, first_number, left_with};
ghost use Rattle.cfs_lock.specs.declared.view.Stage.TheVariants.{Idle, Waits, Holds, Done};

use crate::held::Held;
use crate::pass::Pass;
use crate::recorded::Recorded;
use crate::rule::{Count, Draw, Look, Origin, Rule, Serve};
use crate::view::View;
use atomic_table::{Seat, Table};
use std::alloc::Global;
use std::sync::Wait;
use std::thread;

mod passes;

const TICKET: usize = 0;

const SERVING: usize = 1;

const COUNT: usize = 2;

/// A lock round a value whose log its passes know.
///
/// Passes enter in the order in which they draw their tickets.
#[derive(Drop)]
pub struct TreeLock<X: Recorded> {
    table: Table<Option<X>, View<X>, Origin<X>, Rule, Global>,
    pub ghost words: { table.shared.table_id.words ≡ 3 },
    pub ghost slots: { table.shared.table_id.slots ≡ 1 },
}

impl<X: Recorded> TreeLock<X> {
    ghost use Rattle.cfs_lock.specs.Passes.{IsInside, IsOutside, IsPassOf, IsSame, knows};

    /// Draws the next ticket.
    fn draw(&self, seat: &mut Seat<Option<X>, View<X>>) -> u64
        requires own { seat.old.table_id ≡ self.now.table.shared.table_id }
        requires idle { seat.old.me.0.stage ≡ Idle }
        requires booked { 0 < length seat.old.me.0.books }
        ensures own { seat.new.table_id ≡ seat.old.table_id }
        ensures drawn { (ticket : ℕ) × (result ≡ word_of ticket)
            × (seat.new.me ≡ (at_stage (Waits ticket) seat.old.me.0, seat.old.me.1)) }
    {
        self.table.shared.fetch_add::<Draw>(seat, TICKET, 1)
    }

    /// Takes the value where the ticket is served.
    fn look(&self, seat: &mut Seat<Option<X>, View<X>>, ticket: u64) -> Option<X>
        requires own { seat.old.table_id ≡ self.now.table.shared.table_id }
        requires waits { (drawn : ℕ) × (ticket ≡ word_of drawn)
            × (seat.old.me.0.stage ≡ Waits drawn) }
        requires empty { seat.old.me.1 ≡ [] }
        ensures own { seat.new.table_id ≡ seat.old.table_id }
        ensures found { IfSome result (λ value. Finds X.log X.part seat.old.me.0 value) }
        ensures holds { IfSome result (λ value. (drawn : ℕ)
            × (seat.new.me ≡ (at_stage (Holds drawn value) seat.old.me.0, (0, None) ∷ []))) }
        ensures waits { IfNone result (seat.new.me ≡ seat.old.me) }
    {
        if self.table.shared.load::<Look>(seat, SERVING) != ticket {
            return None;
        }
        self.table.shared.exchange(seat, 0, None)
    }

    /// Waits until the seat's ticket is served, by trying again.
    fn take<R: Wait>(&self, rt: &R, seat: &mut Seat<Option<X>, View<X>>) -> X
        requires own { seat.old.table_id ≡ self.now.table.shared.table_id }
        requires idle { seat.old.me.0.stage ≡ Idle }
        requires booked { 0 < length seat.old.me.0.books }
        requires empty { seat.old.me.1 ≡ [] }
        ensures own { seat.new.table_id ≡ seat.old.table_id }
        ensures found { Finds X.log X.part seat.old.me.0 result }
        ensures holds { (ticket : ℕ)
            × (seat.new.me ≡ (at_stage (Holds ticket result) seat.old.me.0, (0, None) ∷ [])) }
    {
        let ticket = self.draw(seat);
        for _ in rt.forever() {
            if let Some(value) = self.look(seat, ticket) {
                return value;
            }
            thread::yield_now();
        }
        unreachable!()
    }

    /// Brings the value home with its entries counted, and serves the next ticket.
    fn give(&self, seat: &mut Seat<Option<X>, View<X>>, value: X)
        requires own { seat.old.table_id ≡ self.now.table.shared.table_id }
        requires grows { (ticket : ℕ) × (found : X) × (seat.old.me.0.stage ≡ Holds ticket found)
            × Grows X.log X.part (first_number seat.old.me.0.books) found value }
        requires handed { seat.old.me.1 ≡ (0, None) ∷ [] }
        ensures own { seat.new.table_id ≡ seat.old.table_id }
        ensures left { seat.new.me ≡ (left_with X.log X.part value seat.old.me.0, []) }
    {
        let count = value.count();
        let empty = self.table.shared.exchange(seat, 0, Some(value));
        let None = empty else { unreachable!() };
        self.table.shared.swap::<Count>(seat, COUNT, count);
        self.table.shared.fetch_add::<Serve>(seat, SERVING, 1);
    }

    /// Waits until it is this pass's turn, by trying again, and hands out the value.
    pub fn enter<R: Wait>(&self, rt: &R, pass: &mut Pass<X>) -> Held<X>
        requires own { IsPassOf self.now pass.old }
        requires outside { IsOutside pass.old }
        ensures same { IsSame pass.old pass.new }
        ensures found { Finds X.log X.part (knows pass.old) result.value }
        ensures inside { (ticket : ℕ)
            × (knows pass.new ≡ at_stage (Holds ticket result.value) (knows pass.old)) }
    {
        let value = self.take(rt, &mut pass.seat);
        pass.inside = true;
        Held { value }
    }

    /// Gives the value back, with its new entries counted, and lets the next pass in.
    pub fn leave(&self, pass: &mut Pass<X>, held: Held<X>)
        requires own { IsPassOf self.now pass.old }
        requires grows { (found : X) × IsInside pass.old found
            × Grows X.log X.part pass.old.number found held.value }
        ensures same { IsSame pass.old pass.new }
        ensures outside { IsOutside pass.new }
        ensures left { knows pass.new ≡ left_with X.log X.part held.value (knows pass.old) }
    {
        self.give(&mut pass.seat, held.value);
        pass.inside = false;
    }
}
