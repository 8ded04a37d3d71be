ghost use Rattle.cfs_lock.specs.Passes.{IsOutside, IsPassOf};

use crate::blank::Blank;
use crate::turns::{lock, turns};
use cfs_lock::{Pass, TreeLock};
use std::alloc::Global;
use std::sync::Wait;
use std::thread::{Threads, join};

/// So many turns by each of two threads.
fn two<R: Threads + Wait + Sync>(
    rt: &R,
    left: &TreeLock<Blank>,
    one: Pass<Blank>,
    right: &TreeLock<Blank>,
    other: Pass<Blank>,
    count: u64,
)
    requires own { IsPassOf left.now one × IsPassOf right.now other }
    requires outside { IsOutside one × IsOutside other }
{
    join(
        rt,
        || -> ()
            requires { IsPassOf left.now one × IsOutside one }
        { turns(rt, left, one, count) },
        || -> ()
            requires { IsPassOf right.now other × IsOutside other }
        { turns(rt, right, other, count) },
    );
}

/// So many turns by each of four threads, all on one lock.
pub fn on_one_lock<R: Threads + Wait + Sync>(rt: &R, alloc: Global, count: u64) -> Option<()> {
    let (lock, mut first) = lock(alloc)?;
    let second = lock.split(&mut first);
    let third = lock.split(&mut first);
    let fourth = lock.split(&mut first);
    let lock = &lock;
    join(
        rt,
        || -> ()
            requires { IsPassOf lock.now first × IsOutside first
                × IsPassOf lock.now second × IsOutside second }
        { two(rt, lock, first, lock, second, count) },
        || -> ()
            requires { IsPassOf lock.now third × IsOutside third
                × IsPassOf lock.now fourth × IsOutside fourth }
        { two(rt, lock, third, lock, fourth, count) },
    );
    Some(())
}

/// So many turns by each of four threads, each on a lock of its own.
pub fn on_four_locks<R: Threads + Wait + Sync>(rt: &R, alloc: Global, count: u64) -> Option<()> {
    let (first_lock, first) = lock(alloc)?;
    let (second_lock, second) = lock(alloc)?;
    let (third_lock, third) = lock(alloc)?;
    let (fourth_lock, fourth) = lock(alloc)?;
    join(
        rt,
        || -> ()
            requires { IsPassOf first_lock first × IsOutside first
                × IsPassOf second_lock second × IsOutside second }
        { two(rt, &first_lock, first, &second_lock, second, count) },
        || -> ()
            requires { IsPassOf third_lock third × IsOutside third
                × IsPassOf fourth_lock fourth × IsOutside fourth }
        { two(rt, &third_lock, third, &fourth_lock, fourth, count) },
    );
    Some(())
}
