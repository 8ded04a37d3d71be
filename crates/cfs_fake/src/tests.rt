ghost use Rattle.std.specs.Prelude.{◌≡◌, IfSome};
ghost use Rattle.cfs_lock.specs.Passes.{IsOutside, IsPassOf};

use crate::{HoldGate, Listed, Note, add_next, both_add};
use cfs_lock::{Pass, TreeLock};
use cfs_sched::Gate;
use std::alloc::Global;

/// A lock round an empty list, for two passes, both of which stand.
fn two_passes(alloc: Global) -> Option<(TreeLock<Listed>, Pass<Listed>, Pass<Listed>)>
    ensures own { IfSome result (λ r. IsPassOf r.0 r.1 × IsPassOf r.0 r.2) }
    ensures outside { IfSome result (λ r. IsOutside r.1 × IsOutside r.2) }
    ensures numbers { IfSome result (λ r. (r.1.number ≡ 0) × (r.2.number ≡ 1)) }
{
    let Ok((lock, mut first)) = TreeLock::new(alloc, Listed::new(alloc), 2) else {
        return None;
    };
    let second = lock.split(&mut first);
    Some((lock, first, second))
}

#[test]
fn a_lock_ends_with_its_last_pass(rt: HostRuntime) {
    let Some((lock, mut first, second)) = two_passes(rt.alloc()) else {
        panic!(rt; "no memory")
    };
    assert!(rt; first.left() == 0 && !first.inside());
    let one = add_next(&rt, &lock, &mut first, 0);
    let two = add_next(&rt, &lock, &mut first, 1);
    assert!(rt; one && two);
    let Err((lock, mut first)) = lock.close(first) else {
        panic!(rt; "a second pass stands")
    };
    lock.join(&mut first, second);
    let Ok(list) = lock.close(first) else {
        panic!(rt; "no other pass stands")
    };
    let want = [Note { by: 0, word: 1 }, Note { by: 0, word: 2 }];
    assert!(rt; list.notes() == want.as_slice());
}

#[test]
fn two_threads_find_their_own_words(rt: HostRuntime) {
    let Some((lock, first, second)) = two_passes(rt.alloc()) else {
        panic!(rt; "no memory")
    };
    let ((mut first, one), (second, two)) = both_add(&rt, &lock, first, second, 1000);
    assert!(rt; one && two);
    lock.join(&mut first, second);
    let Ok(list) = lock.close(first) else {
        panic!(rt; "no other pass stands")
    };
    assert!(rt; list.counts_up(0, 1000) && list.counts_up(1, 1000));
    assert_eq!(rt; list.notes().len(), 2000);
}

#[test]
fn a_gate_holds_its_call(rt: HostRuntime) {
    let gate = HoldGate::new(1, 3);
    gate.pass(0);
    gate.pass(1);
    assert!(rt; !gate.is_open());
    gate.open();
    gate.pass(1);
    assert!(rt; gate.is_open());
}
