//! What allows or refuses each step of a device.
ghost use Rattle.std.specs.Prelude.{◌≡◌, ◌∷◌, List};
ghost use Rattle.cfs_pmem.specs.declared.trace.Asked.{Asked};
ghost use Rattle.cfs_pmem.specs.declared.trace.Asked.TheVariants.{Step};

/// The power of the devices: every device call asks it for one step first.
pub trait Power {
    /// All that it was asked and told so far, the newest first: each step with its answer, and the
    /// settings between.
    ghost asked: { Self → List Asked };

    /// Asks for one step of the device with this number. `writing` tells a step that writes or
    /// persists from one that reads.
    fn step(&mut self, device: u32, writing: bool) -> bool
        ensures { asked self.new ≡ Step device writing result ∷ asked self.old };
}
