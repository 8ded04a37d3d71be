ghost use Rattle.std.specs.Prelude.{◌≡◌, ◌<◌};
ghost use Rattle.cfs_lock.specs.Passes.{IsOutside, IsPassOf, IsSame};

use crate::listed::Listed;
use cfs_lock::{Pass, TreeLock};
use std::sync::Wait;
use std::thread::{Threads, join};

/// Enters, tells whether the pass finds its words 1 to `made` in order, and notes the next one.
pub fn add_next<R: Wait>(
    rt: &R,
    lock: &TreeLock<Listed>,
    pass: &mut Pass<Listed>,
    made: u64,
) -> bool
    requires own { IsPassOf lock.now pass.old }
    requires outside { IsOutside pass.old }
    requires few { pass.old.number < 4 }
    ensures same { IsSame pass.old pass.new }
    ensures outside { IsOutside pass.new }
{
    let number = pass.number();
    let mut held = lock.enter(rt, pass);
    let list = held.state();
    let found = list.counts_up(number, made);
    let added = list.add(number, made.saturating_add(1));
    lock.leave(pass, held);
    found && added.is_ok()
}

/// Enters `count` times and notes a word each time. Tells whether it always found its own words.
pub fn add_all<R: Wait>(
    rt: &R,
    lock: &TreeLock<Listed>,
    mut pass: Pass<Listed>,
    count: u64,
) -> (Pass<Listed>, bool)
    requires own { IsPassOf lock.now pass }
    requires outside { IsOutside pass }
    requires few { pass.number < 4 }
    ensures own { IsPassOf lock.now result.0 }
    ensures outside { IsOutside result.0 }
    ensures number { result.0.number ≡ pass.number }
{
    let mut fine = true;
    for made in 0..count {
        fine = add_next(rt, lock, &mut pass, made) && fine;
    }
    (pass, fine)
}

/// Two passes of one lock, each in a thread of its own.
pub fn both_add<R: Threads + Wait + Sync>(
    rt: &R,
    lock: &TreeLock<Listed>,
    first: Pass<Listed>,
    second: Pass<Listed>,
    count: u64,
) -> ((Pass<Listed>, bool), (Pass<Listed>, bool))
    requires own { IsPassOf lock.now first × IsPassOf lock.now second }
    requires outside { IsOutside first × IsOutside second }
    requires few { (first.number < 4) × (second.number < 4) }
    ensures own { IsPassOf lock.now result.0.0 × IsPassOf lock.now result.1.0 }
    ensures outside { IsOutside result.0.0 × IsOutside result.1.0 }
    ensures numbers { (result.0.0.number ≡ first.number) × (result.1.0.number ≡ second.number) }
{
    join(
        rt,
        || -> (Pass<Listed>, bool)
            requires { IsPassOf lock.now first × IsOutside first × (first.number < 4) }
            ensures { IsPassOf lock.entry.now result.0 × IsOutside result.0
                × (result.0.number ≡ first.number) }
        { add_all(rt, lock, first, count) },
        || -> (Pass<Listed>, bool)
            requires { IsPassOf lock.now second × IsOutside second × (second.number < 4) }
            ensures { IsPassOf lock.entry.now result.0 × IsOutside result.0
                × (result.0.number ≡ second.number) }
        { add_all(rt, lock, second, count) },
    )
}
