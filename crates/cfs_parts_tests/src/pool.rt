ghost use Rattle.std.specs.Prelude.{◌<◌, ◌≤◌};

use cfs_pool::{FEW, MANY, Numbered, Pool, Short};
use std::alloc::{AllocError, Global};

/// An item that is its number.
#[derive(Clone, Copy, Debug, PartialEq, Eq)]
struct Plain(u32);

impl Numbered for Plain {
    ghost number = { λ p. p.0 };

    fn number(&self) -> u32 {
        self.0
    }
}

fn pool(alloc: Global, numbers: &[u32], room: u32) -> Result<Option<Pool<Plain>>, AllocError> {
    let items = numbers
        .iter()
        .map(|n| Plain(*n))
        .collect::<Vec<Plain>>(alloc)?;
    if items.len() > room as usize {
        return Ok(None);
    }
    match Pool::new(alloc, items, room) {
        Ok(pool) => Ok(Some(pool)),
        Err(_) => Err(AllocError),
    }
}

/// Each public call once: the lowest numbers come first, and one block is too few for two.
#[test]
fn calls(rt: HostRuntime) -> Result<(), AllocError> {
    let Some(mut pool) = pool(rt.alloc(), &[5, 1, 9, 3], 8)? else {
        return Err(AllocError);
    };
    assert_eq!(rt; pool.free(), 4);
    let taken = pool.take(2).map(|taken| {
        taken.as_slice() == &[Some(Plain(1)), Some(Plain(3))][..]
    });
    assert_eq!(rt; taken, Ok(true));
    assert_eq!(rt; pool.room(), 8);
    if pool.free() < pool.room() {
        pool.give(Plain(4));
    }
    let taken = pool.take_many(2).map(|taken| {
        taken.as_slice() == &[Some(Plain(4)), Some(Plain(5))][..]
    });
    assert_eq!(rt; taken, Ok(true));
    assert_eq!(rt; pool.take(2).err(), Some(Short { need: 2, free: 1 }));
    assert_eq!(rt; pool.into_parts().len(), 1);
    assert_eq!(rt; (FEW, MANY), (2, 17));
    Ok(())
}

/// The next number of a plain generator of numbers.
fn draw(seed: &mut u64, below: u64) -> u64
    requires { 0 < below }
    ensures { result < below }
{
    *seed = seed
        .wrapping_mul(6_364_136_223_846_793_005)
        .wrapping_add(1_442_695_040_888_963_407);
    (*seed >> 33) % below
}

/// Whether this is the lowest item of the plain list, which has it no more.
fn is_next(free: &mut [bool], item: Option<Plain>) -> bool {
    let Some(lowest) = free.iter().position(|is| *is) else {
        return false;
    };
    if let Some(is) = free.get_mut(lowest) {
        *is = false;
    }
    item.map(|item| item.0 as usize) == Some(lowest)
}

/// Takes items, and tells whether they are the lowest of the plain list, or too few are free there.
fn takes(pool: &mut Pool<Plain>, free: &mut [bool], k: u32) -> bool
    requires { k ≤ 2 }
{
    let count = free.iter().filter(|is| **is).count();
    let taken = match pool.take(k) {
        Ok(taken) => taken,
        Err(short) => {
            return short.need == k && short.free as usize == count && count < k as usize;
        }
    };
    let mut same = taken.len() == k as usize && k as usize <= count;
    for item in taken.as_slice() {
        same = is_next(free, *item) && same;
    }
    same
}

/// Three thousand drawn calls, beside a plain list of which numbers are free.
#[test]
fn as_a_plain_list(rt: HostRuntime) -> Result<(), AllocError> {
    let Some(mut pool) = pool(rt.alloc(), &[], 24)? else {
        return Err(AllocError);
    };
    let mut free = [false; 24];
    let mut seed = 5;
    for step in 0..3000u32 {
        let number = draw(&mut seed, 24) as usize;
        // A hundred steps fill the pool, and the next hundred empty it.
        let most = if step % 200 < 100 { 1 } else { 3 };
        if draw(&mut seed, 4) < most {
            let k = 1 + step % 2;
            assert!(rt; takes(&mut pool, &mut free, k), "{step}");
        } else if !free[number] && pool.free() < pool.room() {
            pool.give(Plain(number as u32));
            free[number] = true;
        }
        let count = free.iter().filter(|is| **is).count();
        assert_eq!(rt; pool.free() as usize, count, "{step}");
    }
    Ok(())
}
