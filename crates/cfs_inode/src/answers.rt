//! What calls that close a gate answer.

ghost use Rattle.std.specs.Prelude.{◌≡◌};
ghost use Rattle.cfs_inode.specs.Ends.{is_failed};

/// What a call that is to close a gate answers. `S` is the slots of the request.
#[derive(Drop)]
pub enum CloseAnswer<S> {
    /// The gate is closed: these are the slots of the request, the head first.
    Closed(S),
    /// There is none to be closed.
    Nothing,
    /// A device fault: the gate may be open or closed.
    Failed,
}

impl<S> CloseAnswer<S> {
    /// Whether it was a device fault.
    pub fn is_failed(&self) -> bool
        ensures { result ≡ is_failed self.now }
    {
        matches!(self, CloseAnswer::Failed)
    }
}

/// What a call that is to answer a read tells.
#[derive(Clone, Copy, Debug, PartialEq, Eq)]
pub enum ServeAnswer {
    /// It is answered.
    Served,
    /// It waits for the change at this place.
    NotYet(u64),
    /// A device fault: it is still pending.
    Failed,
}
