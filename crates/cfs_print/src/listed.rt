//! An entry of a queue, as it is listed.

/// How a listed place stands in its queue.
#[derive(Clone, Copy, Debug, PartialEq, Eq)]
pub enum Letter {
    /// `w`: it waits.
    Waiting,
    /// `o`: it is out.
    Out,
    /// `n`: it is a no-op.
    Idle,
    /// `d`: it is in doubt.
    Doubtful,
}

/// A place of a queue, and how it stands.
#[derive(Clone, Copy, Debug, PartialEq, Eq)]
pub struct Listed {
    /// Its place in the order of the file's requests.
    pub place: u64,
    /// How it stands.
    pub letter: Letter,
}
