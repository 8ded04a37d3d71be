//! What an admission did.

use crate::admit_answer::AdmitAnswer;
use crate::answers::CloseAnswer;

/// What an admission did: `S` is the slots of the staged request, which may come back, and `F` is
/// the slots of the one that was in doubt.
#[derive(Drop)]
pub struct Admission<S, F> {
    /// What became of the request in doubt: its gate is closed and its slots are here, or there was
    /// none, or a device fault left it in doubt. `Nothing` also where the answer is `TooBig` or
    /// `NeedBlocks`, since these come before any step.
    pub settled: CloseAnswer<F>,
    /// What the request is answered.
    pub answer: AdmitAnswer<S>,
}
