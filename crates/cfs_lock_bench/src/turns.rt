ghost use Rattle.std.specs.Prelude.{◌≡◌, ◌<◌, ◌+◌, IfSome};
ghost use Rattle.cfs_lock.specs.Passes.{IsOutside, IsPassOf, IsSame};

use crate::blank::Blank;
use cfs_lock::{Pass, TreeLock};
use std::alloc::Global;
use std::sync::Wait;

/// A lock for four passes, and its first pass.
pub fn lock(alloc: Global) -> Option<(TreeLock<Blank>, Pass<Blank>)>
    ensures own { IfSome result (λ made. IsPassOf made.0 made.1 × IsOutside made.1) }
    ensures left { IfSome result (λ made. made.1.left ≡ 3) }
{
    TreeLock::new(alloc, Blank { turns: 0 }, 4).ok()
}

/// One turn: in, a change, out.
fn turn<R: Wait>(rt: &R, lock: &TreeLock<Blank>, pass: &mut Pass<Blank>)
    requires own { IsPassOf lock.now pass.old }
    requires outside { IsOutside pass.old }
    ensures same { IsSame pass.old pass.new }
    ensures outside { IsOutside pass.new }
{
    let mut held = lock.enter(rt, pass);
    let value = held.state();
    value.turns = value.turns.wrapping_add(1);
    lock.leave(pass, held);
}

/// So many turns of one pass.
pub fn turns<R: Wait>(rt: &R, lock: &TreeLock<Blank>, mut pass: Pass<Blank>, count: u64)
    requires own { IsPassOf lock.now pass }
    requires outside { IsOutside pass }
{
    for _ in 0..count {
        turn(rt, lock, &mut pass);
    }
}

/// So many turns by one thread.
pub fn alone<R: Wait>(rt: &R, alloc: Global, count: u64) -> Option<()> {
    let (lock, pass) = lock(alloc)?;
    turns(rt, &lock, pass, count);
    Some(())
}
