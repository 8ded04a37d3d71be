/// What a caller or a worker passes before each of its calls, so that a test can hold it there.
pub trait Gate {
    /// Returns when the call of this number may go on.
    fn pass(&self, call: u64);
}

/// The gate that holds nobody.
#[derive(Clone, Copy, Debug, Default)]
pub struct OpenGate;

impl Gate for OpenGate {
    fn pass(&self, _call: u64) {}
}
