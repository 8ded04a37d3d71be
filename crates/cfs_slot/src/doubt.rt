//! A slot whose gate may be open.
ghost use Rattle.std.specs.Prelude.{◌≡◌, ◌∷◌, length};
ghost use Rattle.std.proofs.Math.ListN.{get_or};
ghost use Rattle.cfs_pmem.specs.Faults.{HasCause};
ghost use Rattle.cfs_pmem.specs.Images.{words_of, AllImages};
ghost use Rattle.cfs_pmem.specs.WordOps.{SetsWord};
ghost use Rattle.cfs_vec.specs.Items.{items_of};
ghost use Rattle.cfs_slot.specs.Words.{mark_of, grant_of, IsWhole};

use crate::layout::{GATE, MOST_TAILS, QUEUE_SLOTS};
use crate::part::Part;
use crate::slot::Slot;
use crate::slots::{all_regions, all_slots};
use cfs_pmem::{Power, Region, set_word};
use cfs_vec::FixedVec;

/// A slot whose request is persisted whole, and whose gate may be open or closed in an image. A
/// long write has its tails here, and the slot is its head.
#[derive(Drop)]
pub struct Doubt<R: Region> {
    pub(crate) region: R,
    pub(crate) grant: u64,
    pub(crate) tails: FixedVec<Part<R>, MOST_TAILS>,
    pub ghost size: { length (words_of (R.seen region)) ≡ 518 },
    pub ghost unmarked: { AllImages (R.seen region) (λ image. mark_of image ≡ 0) },
    pub ghost granted: { AllImages (R.seen region) (λ image. grant_of image ≡ grant) },
    pub ghost whole: { IsWhole (R.seen region) },
}

impl<R: Region + Drop> Doubt<R> {
    ghost use Rattle.cfs_slot.specs.Regions.{of_doubt, after_settle, tails_of_doubt, head_of};

    /// The device number of its region.
    pub fn device(&self) -> u32
        ensures { result ≡ (R.seen (of_doubt self.now)).device }
    {
        self.region.device()
    }

    /// The number of the grant that it was staged under.
    pub fn grant(&self) -> u64
        ensures { result ≡ grant_of (words_of (R.seen (of_doubt self.now))) }
    {
        self.grant
    }

    /// Closes the gate and persists it, in two writing steps, and gives all slots of the request,
    /// the head first. Refuses for a device fault alone, and then the gate is still in doubt.
    pub fn settle<P: Power>(self, power: &mut P) -> Result<FixedVec<Slot<R>, QUEUE_SLOTS>, Doubt<R>>
        ensures set { SetsWord R.obeys_power GATE 0 result
            (P.asked power.old) (R.seen (of_doubt self)) (P.asked power.new)
            (R.seen (head_of (of_doubt self) (after_settle result))) }
        ensures slots { after_settle result ≡ head_of (of_doubt self) (after_settle result) ∷
            tails_of_doubt self }
        ensures grant { grant_of (words_of (R.seen (head_of (of_doubt self) (after_settle result))))
            ≡ grant_of (words_of (R.seen (of_doubt self))) }
        ensures cause { HasCause (R.faults (of_doubt self))
            (R.faults (head_of (of_doubt self) (after_settle result))) result }
    {
        let Doubt {
            mut region,
            grant,
            tails,
        } = self;
        match set_word(&mut region, power, GATE, 0) {
            Ok(()) => Ok(all_slots(Slot { region }, tails)),
            Err(_) => Err(Doubt {
                region,
                grant,
                tails,
            }),
        }
    }

    /// Gives the regions back as they are, the head's first.
    pub fn into_parts(self) -> FixedVec<R, QUEUE_SLOTS>
        ensures { items_of result ≡ of_doubt self ∷ tails_of_doubt self }
    {
        let Doubt { region, tails, .. } = self;
        all_regions(region, tails)
    }
}
