//! What is being done with a change.

ghost use Rattle.std.specs.Prelude.{◌≡◌};

/// What is being done with a change. `S` is what holds it: the slots of a live request.
#[derive(Debug, Drop)]
pub enum Doing<S> {
    /// No job has it.
    Waiting(S),
    /// The same, while its slots are in the caller's hands to be marked.
    Marking,
    /// A job has its slots and these blocks of the file.
    Out {
        first: Option<u64>,
        second: Option<u64>,
    },
    /// It is a no-op.
    Covered(S),
    /// The same, while its slots are in the caller's hands to be closed.
    Closing,
}

impl<S> Doing<S> {
    ghost use Rattle.cfs_tracker.specs.Dispatch.{is_waiting_doing};
    ghost use Rattle.cfs_tracker.specs.Reads.{is_live_doing};

    /// Waiting, with its slots.
    pub fn is_waiting(&self) -> bool
        ensures { result ≡ is_waiting_doing self.now }
    {
        matches!(self, Doing::Waiting(_))
    }

    /// Waiting or out.
    pub fn is_live(&self) -> bool
        ensures { result ≡ is_live_doing self.now }
    {
        matches!(self, Doing::Waiting(_) | Doing::Marking | Doing::Out { .. })
    }
}
