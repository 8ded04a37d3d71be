//! A slot that holds a part of a long write.
ghost use Rattle.std.specs.Prelude.{◌≡◌, length};
ghost use Rattle.cfs_pmem.specs.Images.{words_of, AllImages, IsSure};
ghost use Rattle.cfs_slot.specs.Words.{IsClosed};

use crate::slot::Slot;
use cfs_pmem::Region;

/// A tail of a long write, which is persisted whole. Its gate is closed in every image, and stays
/// so.
#[derive(Drop)]
pub struct Part<R: Region> {
    pub(crate) region: R,
    pub ghost size: { length (words_of (R.seen region)) ≡ 518 },
    pub ghost closed: { AllImages (R.seen region) IsClosed },
    pub ghost sure: { IsSure (R.seen region) },
}

impl<R: Region + Drop> Part<R> {
    ghost use Rattle.cfs_slot.specs.Regions.{of_slot, of_part};

    /// The device number of its region.
    pub fn device(&self) -> u32
        ensures { result ≡ (R.seen (of_part self.now)).device }
    {
        self.region.device()
    }

    /// Gives the part up. Writes nothing.
    pub fn cancel(self) -> Slot<R>
        ensures { of_slot result ≡ of_part self }
    {
        let Part { region } = self;
        Slot { region }
    }

    /// Gives the region back as it is.
    pub fn into_parts(self) -> R
        ensures { result ≡ of_part self }
    {
        let Part { region } = self;
        region
    }
}
