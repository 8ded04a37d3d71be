//! What becomes of a job that is to end.

/// What becomes of a job that is to end. `J` is a job, and `S` is the slots of a request.
#[derive(Drop)]
pub enum FinishAnswer<J, S> {
    /// Its request is retired: these are its slots, the head first.
    Retired(S),
    /// Its blocks are done, and the request waits for the next ones.
    More,
    /// It has steps left.
    Unfinished(J),
    /// A device fault: the request waits again.
    Failed,
}
