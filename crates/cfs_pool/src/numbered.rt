ghost use Rattle.std.specs.Prelude.{◌≡◌, ℕ};

/// What has a number among its like, as a block among those of its store.
pub trait Numbered {
    ghost number: { Self → ℕ };

    /// The number.
    fn number(&self) -> u32
        ensures { result ≡ number self.now };
}
