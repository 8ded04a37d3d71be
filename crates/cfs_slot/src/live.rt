//! A slot whose gate was opened.
ghost use Rattle.std.specs.Prelude.{◌≡◌, ◌≢◌, ◌<◌, ◌≤◌, ◌∷◌, length, IfErr};
ghost use Rattle.cfs_pmem.specs.Faults.{HasCause};
ghost use Rattle.cfs_pmem.specs.Images.{words_of, AllImages};
ghost use Rattle.cfs_pmem.specs.WordOps.{SetsWord};
ghost use Rattle.cfs_vec.specs.Items.{items_of};
ghost use Rattle.cfs_slot.specs.Words.{gate_of, mark_of, grant_of, IsWhole};

use crate::layout::{GATE, MARK, MOST_TAILS, QUEUE_SLOTS};
use crate::part::Part;
use crate::slot::Slot;
use crate::slots::{all_regions, all_slots};
use cfs_pmem::{DeviceFault, Power, Region, set_word};
use cfs_vec::FixedVec;

/// A slot whose request is persisted whole, and whose gate was opened with the entry's place. In an
/// image the gate has that place or, after a `close_gate` that was refused, may be closed; the mark
/// is 0 or 1. A long write has its tails here, and the slot is its head.
#[derive(Drop)]
pub struct Live<R: Region> {
    pub(crate) region: R,
    pub(crate) grant: u64,
    pub(crate) place: u64,
    pub(crate) tails: FixedVec<Part<R>, MOST_TAILS>,
    pub ghost size: { length (words_of (R.seen region)) ≡ 518 },
    pub ghost placed: { 0 < place },
    pub ghost gated: { AllImages (R.seen region)
        (λ image. gate_of image ≢ 0 → gate_of image ≡ place) },
    pub ghost marked: { AllImages (R.seen region) (λ image. mark_of image ≤ 1) },
    pub ghost granted: { AllImages (R.seen region) (λ image. grant_of image ≡ grant) },
    pub ghost whole: { IsWhole (R.seen region) },
}

impl<R: Region + Drop> Live<R> {
    ghost use Rattle.cfs_slot.specs.Regions.{of_live, after_close, place_of, tails_of_live, head_of};

    /// The device number of its region.
    pub fn device(&self) -> u32
        ensures { result ≡ (R.seen (of_live self.now)).device }
    {
        self.region.device()
    }

    /// The number of the grant that it was staged under.
    pub fn grant(&self) -> u64
        ensures { result ≡ grant_of (words_of (R.seen (of_live self.now))) }
    {
        self.grant
    }

    /// The place of the entry, which the gate was opened with.
    pub fn place(&self) -> u64
        ensures place { result ≡ place_of self.now }
        ensures above { 0 < result }
    {
        self.place
    }

    /// Marks the entry as a no-op and persists the mark, in two writing steps. Refuses for a device
    /// fault alone. After that an image may have the mark or not, until a `mark_noop` succeeds.
    pub fn mark_noop<P: Power>(&mut self, power: &mut P) -> Result<(), DeviceFault>
        ensures set { SetsWord R.obeys_power MARK 1 result
            (P.asked power.old) (R.seen (of_live self.old)) (P.asked power.new)
            (R.seen (of_live self.new)) }
        ensures tails { tails_of_live self.new ≡ tails_of_live self.old }
        ensures place { place_of self.new ≡ place_of self.old }
        ensures grant { grant_of (words_of (R.seen (of_live self.new))) ≡
            grant_of (words_of (R.seen (of_live self.old))) }
        ensures cause { HasCause (R.faults (of_live self.old))
            (R.faults (of_live self.new)) result }
    {
        set_word(&mut self.region, power, MARK, 1)?;
        Ok(())
    }

    /// Closes the gate and persists it, in two writing steps, and gives all slots of the request,
    /// the head first. Refuses for a device fault alone. After that the gate may be open or closed
    /// in an image, until a `close_gate` succeeds.
    #[inline(always)]
    pub fn close_gate<P: Power>(
        self,
        power: &mut P,
    ) -> Result<FixedVec<Slot<R>, QUEUE_SLOTS>, Live<R>>
        ensures set { SetsWord R.obeys_power GATE 0 result
            (P.asked power.old) (R.seen (of_live self)) (P.asked power.new)
            (R.seen (head_of (of_live self) (after_close result))) }
        ensures slots { after_close result ≡ head_of (of_live self) (after_close result) ∷
            tails_of_live self }
        ensures place { IfErr result (λ live. place_of live ≡ place_of self) }
        ensures grant { grant_of (words_of (R.seen (head_of (of_live self) (after_close result)))) ≡
            grant_of (words_of (R.seen (of_live self))) }
        ensures cause { HasCause (R.faults (of_live self))
            (R.faults (head_of (of_live self) (after_close result))) result }
    {
        let Live {
            mut region,
            grant,
            place,
            tails,
        } = self;
        match set_word(&mut region, power, GATE, 0) {
            Ok(()) => Ok(all_slots(Slot { region }, tails)),
            Err(_) => Err(Live {
                region,
                grant,
                place,
                tails,
            }),
        }
    }

    /// Gives the regions back as they are, the head's first.
    pub fn into_parts(self) -> FixedVec<R, QUEUE_SLOTS>
        ensures { items_of result ≡ of_live self ∷ tails_of_live self }
    {
        let Live { region, tails, .. } = self;
        all_regions(region, tails)
    }
}
