//! What becomes of a change that is to be given out.

/// What becomes of a change that is to be given out. `J` is a job.
#[derive(Drop)]
pub enum DispatchAnswer<J> {
    /// A job has it.
    Taken(J),
    /// It waits for the request at this place.
    NotYet(u64),
    /// No change waits at the place.
    NotWaiting,
}
