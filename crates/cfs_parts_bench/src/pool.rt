//! A pool of numbered items.
ghost use Rattle.std.specs.Prelude.{◌≡◌};

use cfs_pool::{Numbered, Pool};
use std::alloc::{AllocError, Global};

/// An item that is its number.
#[derive(Clone, Copy, Debug, PartialEq, Eq)]
struct Plain(u32);

impl Numbered for Plain {
    ghost number = { λ p. p.0 };

    fn number(&self) -> u32 {
        self.0
    }
}

/// Takes one of so many items and gives it back, so many times.
pub fn run(alloc: Global, size: u32, count: u32) -> Result<u64, AllocError> {
    let items = (0..size).map(Plain).collect::<Vec<Plain>>(alloc)?;
    if items.len() > size as usize {
        return Ok(0);
    }
    let Ok(mut pool) = Pool::new(alloc, items, size) else {
        return Err(AllocError);
    };
    let mut sum: u64 = 0;
    for _ in 0..count {
        sum = sum.wrapping_add(u64::from(again(&mut pool)));
    }
    Ok(sum)
}

/// Takes an item and gives it back, and answers its number.
fn again(pool: &mut Pool<Plain>) -> u32 {
    let Ok(mut taken) = pool.take(1) else {
        return 0;
    };
    let Some(item) = taken.pop().flatten() else {
        return 0;
    };
    if pool.free() < pool.room() {
        pool.give(item);
    }
    item.0
}
