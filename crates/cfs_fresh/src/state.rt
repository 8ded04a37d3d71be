//! A kernel's part that begins.
ghost use Rattle.std.specs.Prelude.{◌≡◌, ◌≤◌, IfOk, Some, length, map};
ghost use Rattle.cfs_kernel.specs.Queues.{AreWhole};

use crate::names::stored_tree;
use crate::queues::queue;
use cfs_kernel::NsState;
use cfs_pmem::MemRegion;
use cfs_queue::Queue;
use std::alloc::{AllocError, Global};

/// The kernel's part of a store with a root alone and so many queues, at most 64.
pub fn ns_state(alloc: Global, queues: u32) -> Result<NsState<MemRegion>, AllocError>
    requires { queues ≤ 64 }
{
    let stored = stored_tree(alloc)?;
    let queues = queues_to(alloc, queues)?;
    NsState::new(alloc, stored, queues)
}

/// The queues of the numbers below one.
fn queues_to(alloc: Global, count: u32) -> Result<Vec<Queue<MemRegion>>, AllocError>
    requires { count ≤ 64 }
    ensures count { IfOk result (λ queues. length queues.items ≡ count) }
    ensures whole { IfOk result (λ queues. AreWhole (map (λ queue. Some queue) queues.items)) }
{
    let mut queues = Vec::with_capacity(alloc, count as usize)?;
    for number in 0..count {
        queues.push(queue(alloc, number)?)?;
    }
    Ok(queues)
}
