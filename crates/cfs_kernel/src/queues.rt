//! The queues of a store.
ghost use Rattle.std.specs.Prelude.{◌≡◌, ◌<◌, ◌≤◌, [], IfOk, IfSome, IsSome, None, Some, is_some, length, map, replicate, set, true, vec_len};
ghost use Rattle.cfs_grants.specs.Grants.{free_queue, grant_at};
ghost use Rattle.cfs_queue.specs.Queue.{out_slots};
ghost use Rattle.cfs_kernel.specs.Queues.{AreOut, AreWhole, home_at};

use cfs_grants::{Grant, Grants};
use cfs_pmem::Region;
use cfs_queue::Queue;
use std::alloc::{AllocError, Global};

/// The queues of a store: each is home, or out with its grant.
#[derive(Drop)]
pub(crate) struct Queues<R: Region> {
    grants: Grants,
    home: Vec<Option<Queue<R>>>,
    pub ghost out: { AreOut grants home.items },
    pub ghost whole: { AreWhole home.items },
}

impl<R: Region + Drop> Queues<R> {
    /// The queues, all of them home.
    pub(crate) fn new(alloc: Global, queues: Vec<Queue<R>>) -> Result<Self, AllocError>
        requires most { vec_len queues ≤ 64 }
        requires whole { AreWhole (map (λ queue. Some queue) queues.items) }
        ensures grants { IfOk result (λ new. new.grants ≡ replicate (vec_len queues) None) }
        ensures home { IfOk result (λ new.
            new.home.items ≡ map (λ queue. Some queue) queues.items) }
    {
        let grants = Grants::new(queues.len());
        let home = all_home(alloc, queues)?;
        Ok(Queues { grants, home })
    }

    /// The grants.
    pub(crate) fn grants(&self) -> &Grants
        ensures { result.now ≡ self.now.grants }
    {
        &self.grants
    }

    /// How many queues there are.
    pub(crate) fn count(&self) -> u32
        ensures { result ≡ length self.now.grants }
    {
        self.grants.queues()
    }

    /// The lowest queue that has no grant.
    pub(crate) fn free(&self) -> Option<u32>
        ensures lowest { result ≡ free_queue self.now.grants }
        ensures home { IfSome result (λ queue. IsSome (home_at self.now.home.items queue)) }
    {
        self.grants.free_queue()
    }

    /// The queues that are home, each at its number.
    pub(crate) fn into_home(self) -> Vec<Option<Queue<R>>>
        ensures { result ≡ self.home }
    {
        self.home
    }

    /// Gives the lowest queue that has no grant.
    pub(crate) fn give(&mut self, grant: Grant) -> Queue<R>
        requires { free_queue self.old.grants ≡ Some grant.queue }
        ensures grants { self.new.grants ≡ set self.old.grants grant.queue (Some grant) }
        ensures home { self.new.home.items ≡ set self.old.home.items grant.queue None }
        ensures queue { home_at self.old.home.items grant.queue ≡ Some result }
        ensures number { result.number ≡ grant.queue }
        ensures whole { out_slots result ≡ [] }
    {
        let Some(queue) = self.home[grant.queue as usize].take() else {
            unreachable!()
        };
        self.grants.give(grant);
        queue
    }

    /// Takes a queue back, and its grant.
    pub(crate) fn close(&mut self, queue: Queue<R>)
        requires whole { out_slots queue ≡ [] }
        requires granted { is_some (grant_at self.old.grants queue.number) ≡ true }
        ensures grants { self.new.grants ≡ set self.old.grants queue.number None }
        ensures home { self.new.home.items ≡ set self.old.home.items queue.number (Some queue) }
    {
        let number = queue.number();
        self.home[number as usize] = Some(queue);
        self.grants.close(number);
    }
}

/// The queues, each of them home.
fn all_home<R: Region + Drop>(
    alloc: Global,
    queues: Vec<Queue<R>>,
) -> Result<Vec<Option<Queue<R>>>, AllocError>
    ensures { IfOk result (λ home. home.items ≡ map (λ queue. Some queue) queues.items) }
{
    let mut home = Vec::with_capacity(alloc, queues.len())?;
    for queue in queues {
        home.push(Some(queue))?;
    }
    Ok(home)
}
