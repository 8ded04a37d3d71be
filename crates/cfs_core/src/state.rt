//! What becomes of a logged request.

ghost use Rattle.std.specs.Prelude.{◌≡◌};
ghost use Rattle.cfs_core.specs.Words.{has_block, is_done, is_lease, is_live, is_noop, is_out, is_through, is_unserved, is_waiting};

/// A block that a job has, and what the job has done to it.
#[derive(Clone, Copy, Debug, PartialEq, Eq)]
pub struct Lease {
    /// The number of the block in the file.
    pub block: u64,
    /// Its part of the request was written.
    pub written: bool,
    /// It was flushed since.
    pub flushed: bool,
}

/// The work on an entry that is out: at most two blocks, in ascending order.
#[derive(Clone, Copy, Debug, PartialEq, Eq)]
pub struct Job {
    /// The first block, if there is one.
    pub first: Option<Lease>,
    /// The second block, if there is one.
    pub second: Option<Lease>,
}

/// How far a logged request has come.
#[derive(Clone, Copy, Debug, PartialEq, Eq)]
pub enum State {
    /// A write or a truncate that no job has.
    Waiting,
    /// A write or a truncate that a job has.
    Out(Job),
    /// A write or a truncate that a later one covers: its mark is set.
    Noop,
    /// A read or a sync that was not answered.
    Unserved,
    /// All is done.
    Closed,
}

impl State {
    /// Waiting or out.
    pub fn is_live(self) -> bool
        ensures { result ≡ is_live self }
    {
        matches!(self, State::Waiting | State::Out(_))
    }

    pub fn is_waiting(self) -> bool
        ensures { result ≡ is_waiting self }
    {
        matches!(self, State::Waiting)
    }

    pub fn is_out(self) -> bool
        ensures { result ≡ is_out self }
    {
        matches!(self, State::Out(_))
    }

    pub fn is_noop(self) -> bool
        ensures { result ≡ is_noop self }
    {
        matches!(self, State::Noop)
    }

    pub fn is_unserved(self) -> bool
        ensures { result ≡ is_unserved self }
    {
        matches!(self, State::Unserved)
    }

    /// It is out, and its job has the block.
    pub fn has_block(self, block: u64) -> bool
        ensures { result ≡ has_block self block }
    {
        match self {
            State::Out(job) => is_lease(job.first, block) || is_lease(job.second, block),
            State::Waiting | State::Noop | State::Unserved | State::Closed => false,
        }
    }

    /// It is out, and each block of its job was written and then flushed.
    pub fn is_through(self) -> bool
        ensures { result ≡ is_through self }
    {
        match self {
            State::Out(job) => is_done(job.first) && is_done(job.second),
            State::Waiting | State::Noop | State::Unserved | State::Closed => false,
        }
    }
}

fn is_lease(lease: Option<Lease>, block: u64) -> bool
    ensures { result ≡ is_lease lease block }
{
    match lease {
        Some(lease) => lease.block == block,
        None => false,
    }
}

fn is_done(lease: Option<Lease>) -> bool
    ensures { result ≡ is_done lease }
{
    match lease {
        Some(lease) => lease.written && lease.flushed,
        None => true,
    }
}
