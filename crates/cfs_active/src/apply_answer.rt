//! What a step of a job answers.

/// What becomes of the next step of a job.
#[derive(Clone, Copy, Debug, PartialEq, Eq)]
pub enum ApplyAnswer {
    /// It was made, and so many are left. Where none was left, nothing was done.
    Made(u32),
    /// A device fault: it is still the next step.
    Failed,
    /// No job of the place is out.
    NotOut,
}
