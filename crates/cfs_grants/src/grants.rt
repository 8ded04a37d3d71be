//! The table of grants.
ghost use Rattle.std.specs.Prelude.{◌≡◌, ◌<◌, ◌≤◌, IfSome, None, Some, length, replicate, set};
ghost use Rattle.cfs_grants.specs.Grants.{free_queue, grant_at, has_file, is_for};

use crate::grant::Grant;
use arrayvec::ArrayVec;
use std::marker::Model;

/// How many queues a store has at most (own).
pub const MOST_QUEUES: usize = 64;

/// The grants that stand, each at the number of its queue. It takes no memory.
#[derive(Debug, Drop)]
pub struct Grants {
    rows: ArrayVec<Option<Grant>, MOST_QUEUES>,
}

impl Model for Grants {
    ghost use Rattle.std.specs.Prelude.{List, Option};
    ghost use Rattle.cfs_grants.specs.declared.grant.Grant.{Grant as OneGrant};

    ghost Value = { List (Option OneGrant) };

    ghost view = { λ g. g.rows.items };
}

impl Grants {
    /// No grant, on a store of so many queues.
    pub fn new(queues: usize) -> Grants
        requires { queues ≤ 64 }
        ensures { result ≡ replicate queues None }
    {
        let mut rows = ArrayVec::new();
        for _ in 0..queues {
            rows.push(None);
        }
        Grants { rows }
    }

    /// The grant of each queue, from queue 0 on.
    pub fn rows(&self) -> &[Option<Grant>]
        ensures { result.now ≡ self.now }
    {
        self.rows.as_slice()
    }

    /// How many queues the store has.
    pub fn queues(&self) -> u32
        ensures { result ≡ length self.now }
    {
        self.rows.len() as u32
    }

    /// The grant that has a queue.
    pub fn get(&self, queue: u32) -> Option<Grant>
        ensures { result ≡ grant_at self.now queue }
    {
        *self.rows.get(queue as usize)?
    }

    /// The lowest queue without a grant.
    pub fn free_queue(&self) -> Option<u32>
        ensures lowest { result ≡ free_queue self.now }
        ensures within { IfSome result (λ queue. queue < length self.now) }
    {
        free_from(self.rows.as_slice())
    }

    /// Whether a grant is for this file.
    pub fn has_file(&self, ino: u64) -> bool
        ensures { result ≡ has_file self.now ino }
    {
        self.rows.iter().any(|row| is_for(row, ino))
    }

    /// Gives a queue of the store.
    pub fn give(&mut self, grant: Grant)
        requires { grant.queue < length self.old }
        ensures { self.new ≡ set self.old grant.queue (Some grant) }
    {
        self.rows[grant.queue as usize] = Some(grant);
    }

    /// Takes the grant of a queue back, if there is one.
    pub fn close(&mut self, queue: u32)
        ensures { self.new ≡ set self.old queue None }
    {
        if let Some(row) = self.rows.get_mut(queue as usize) {
            *row = None;
        }
    }
}

/// The lowest row without a grant.
fn free_from(rows: &[Option<Grant>]) -> Option<u32>
    requires { length rows.now ≤ 64 }
    ensures lowest { result ≡ free_queue rows.now }
    ensures within { IfSome result (λ queue. queue < length rows.now) }
{
    for queue in 0..rows.len() {
        if rows[queue].is_none() {
            return Some(queue as u32);
        }
    }
    None
}

/// Whether a row's grant is for this file.
fn is_for(row: &Option<Grant>, ino: u64) -> bool
    ensures { result ≡ is_for ino row.now }
{
    match row {
        Some(grant) => grant.ino == ino,
        None => false,
    }
}
