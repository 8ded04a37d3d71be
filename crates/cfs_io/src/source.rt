//! Where bytes come from.

ghost use Rattle.std.specs.Prelude.{◌≡◌, ℕ, List};
ghost use Rattle.std.specs.declared.option.Option.{Option};
ghost use Rattle.std.specs.Io.{ReadsAtMost};
ghost use Rattle.std.specs.Io.KnownBytes.{ReadConsumes};
ghost use Rattle.cfs_pmem.specs.Faults.{HasCause};
ghost use Rattle.cfs_io.specs.Counts.{next_count};

use crate::IoFault;

/// A source of bytes.
pub trait Source {
    /// The bytes that reads will give from here on, where the source tells them.
    ghost left: { Self → Option (List ℕ) };

    /// How many faults the source has had. The count stays at the end of `u64`.
    ghost faults: { Self → ℕ };

    /// How many reads were made. The count stays at the end of `u64`.
    ghost reads: { Self → ℕ };

    /// Reads some of the bytes left into the front of `out` and says how many: 0 into a piece that
    /// is not empty only at the end. A failed read takes none (own).
    fn read(&mut self, out: &mut [u8]) -> Result<usize, IoFault>
        ensures bound { ReadsAtMost result out.new }
        ensures bytes { ReadConsumes (left self.old) (left self.new) result out.new }
        ensures cause { HasCause (faults self.old) (faults self.new) result }
        ensures counted { reads self.new ≡ next_count (reads self.old) };
}
