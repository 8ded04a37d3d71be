ghost use Rattle.std.specs.Prelude.{◌≡◌, ◌+◌, ◌≤◌};

/// Neighbouring file blocks.
#[derive(Clone, Copy, Debug)]
pub(crate) struct Run {
    /// The first file block.
    pub first: u32,
    /// How many they are.
    pub count: u32,
}

impl Run {
    /// The file block after the last one.
    pub(crate) fn end(&self) -> u32
        requires { self.now.first + self.now.count ≤ 256 }
        ensures { result ≡ self.now.first + self.now.count }
    {
        self.first + self.count
    }
}
