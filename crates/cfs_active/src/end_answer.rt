//! What becomes of a job that is to end.

/// What becomes of a job that is to end. `S` is the slots of a request.
#[derive(Drop)]
pub enum EndAnswer<S> {
    /// Its request is retired: these are its slots, the head first.
    Retired(S),
    /// Its blocks are done, and the request waits for the next ones.
    More,
    /// It has so many steps left, and is out as before.
    Unfinished(u32),
    /// A device fault: the request waits again.
    Failed,
    /// No job of the place is out.
    NotOut,
}
