ghost use Rattle.std.specs.Prelude.{◌≡◌, ℕ, List, length};

/// A value that keeps a log of what was done to it, and a part for each number of a pass.
pub trait Recorded {
    /// The entries so far, each with the number of the pass that made it.
    ghost log: { Self → List (ℕ × List ℕ) };

    /// What the value keeps for a number. No call tells it.
    ghost part: { Self → ℕ → List (List ℕ) };

    /// How many entries the log has.
    fn count(&self) -> u64
        ensures { result ≡ length (log self.now) };
}
