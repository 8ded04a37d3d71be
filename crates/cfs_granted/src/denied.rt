//! A request that no grant allows.

/// No grant that stands allows the request. `S` is what comes back with it.
#[derive(Debug, Drop)]
pub struct Denied<S> {
    /// What was handed in, as it was.
    pub back: S,
}
