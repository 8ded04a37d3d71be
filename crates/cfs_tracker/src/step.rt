//! What becomes of a change that is to be dispatched.

/// What becomes of a change that is to be dispatched.
#[derive(Clone, Copy, Debug, PartialEq, Eq)]
pub enum Step {
    /// No change waits at the place with its slots.
    NotWaiting,
    /// It waits for the request at this place.
    NotYet(u64),
    /// A job may take it, with these blocks of the file.
    Takes {
        first: Option<u64>,
        second: Option<u64>,
    },
}
