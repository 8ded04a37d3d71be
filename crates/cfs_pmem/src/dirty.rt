//! The range of places that were written since the last persist.
ghost use Rattle.std.specs.Prelude.{◌≡◌, length};

/// The least range that holds every place that was added: `from..to`, or none where `to` is not
/// above `from`.
#[derive(Clone, Copy, Debug)]
pub struct Dirty {
    pub from: u32,
    pub to: u32,
}

impl Dirty {
    ghost use Rattle.cfs_pmem.specs.Range.{with_range, DifferWithin};

    /// No place of `len`.
    pub fn none(len: u32) -> Dirty
        ensures { result ≡ record { from = len; to = 0 } }
    {
        Dirty { from: len, to: 0 }
    }

    /// Adds the places from `from` up to `to`.
    #[inline]
    pub fn add(&mut self, from: u32, to: u32)
        ensures { self.new ≡ with_range from to self.old }
    {
        self.from = self.from.min(from);
        self.to = self.to.max(to);
    }

    /// Makes what is durable equal to what is present, where the two differ in this range alone.
    /// Copies the range.
    #[inline]
    pub fn copy<T: Copy>(self, present: &Vec<T>, durable: &mut Vec<T>)
        requires { DifferWithin self durable.old.items present.now.items }
        ensures { durable.new.items ≡ present.now.items }
    {
        let (from, to) = (self.from as usize, self.to as usize);
        if from < to {
            durable[from..to].copy_from_slice(&present[from..to]);
        }
    }
}
