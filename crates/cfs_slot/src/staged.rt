//! A slot that holds a request behind its closed gate.
ghost use Rattle.std.specs.Prelude.{◌≡◌, ◌<◌, ◌∷◌, length, Some, IfOk, OnOk};
ghost use Rattle.cfs_pmem.specs.Faults.{HasCause};
ghost use Rattle.cfs_pmem.specs.Images.{words_of, AllImages, IsSure};
ghost use Rattle.cfs_pmem.specs.WordOps.{SetsWord};
ghost use Rattle.cfs_vec.specs.Items.{items_of};
ghost use Rattle.cfs_slot.specs.Words.{mark_of, grant_of, ino_of, request_of, with_offset, live_entry, IsClosed, IsWholeButOffset};

use crate::doubt::Doubt;
use crate::layout::{GATE, MOST_TAILS, OFFSET, QUEUE_SLOTS};
use crate::live::Live;
use crate::part::Part;
use crate::slot::Slot;
use crate::slots::{all_regions, all_slots};
use cfs_pmem::{DeviceFault, Power, Region, set_word};
use cfs_vec::FixedVec;

/// A slot whose request is persisted whole behind the closed gate: all but the offset of a
/// `set_offset` that was refused. A long write has its tails here, and the slot is its head.
#[derive(Drop)]
pub struct Staged<R: Region> {
    pub(crate) region: R,
    pub(crate) grant: u64,
    pub(crate) tails: FixedVec<Part<R>, MOST_TAILS>,
    pub ghost size: { length (words_of (R.seen region)) ≡ 518 },
    pub ghost closed: { AllImages (R.seen region) IsClosed },
    pub ghost unmarked: { AllImages (R.seen region) (λ image. mark_of image ≡ 0) },
    pub ghost granted: { AllImages (R.seen region) (λ image. grant_of image ≡ grant) },
    pub ghost whole: { IsWholeButOffset (R.seen region) },
}

impl<R: Region + Drop> Staged<R> {
    ghost use Rattle.cfs_slot.specs.Regions.{of_slots, of_staged, of_live, after_open, place_of, tails_of_staged, tails_after_open, words_in};

    /// The device number of its region.
    pub fn device(&self) -> u32
        ensures { result ≡ (R.seen (of_staged self.now)).device }
    {
        self.region.device()
    }

    /// The number of the grant that it was staged under.
    pub fn grant(&self) -> u64
        ensures { result ≡ grant_of (words_of (R.seen (of_staged self.now))) }
    {
        self.grant
    }

    /// Sets the offset and persists it, in two writing steps. Refuses for a device fault alone.
    /// After that the offset is unsure, so that an image may have the old or the new one, until a
    /// `set_offset` succeeds.
    pub fn set_offset<P: Power>(&mut self, power: &mut P, offset: u64) -> Result<(), DeviceFault>
        ensures set { SetsWord R.obeys_power OFFSET offset result
            (P.asked power.old) (R.seen (of_staged self.old)) (P.asked power.new)
            (R.seen (of_staged self.new)) }
        ensures request { OnOk result (
            request_of (words_of (R.seen (of_staged self.new)))
            (words_in R.seen (tails_of_staged self.new)) ≡
            with_offset offset (request_of (words_of (R.seen (of_staged self.old)))
            (words_in R.seen (tails_of_staged self.old)))) }
        ensures tails { tails_of_staged self.new ≡ tails_of_staged self.old }
        ensures grant { grant_of (words_of (R.seen (of_staged self.new))) ≡
            grant_of (words_of (R.seen (of_staged self.old))) }
        ensures cause { HasCause (R.faults (of_staged self.old)) (R.faults (of_staged self.new))
            result }
    {
        set_word(&mut self.region, power, OFFSET, offset)?;
        Ok(())
    }

    /// Opens the gate with the entry's place and persists it, in two writing steps: so the request
    /// is durable whole, or not at all. Refuses for a device fault alone, and then nobody knows
    /// whether the gate is open.
    #[inline(always)]
    pub fn open_gate<P: Power>(self, power: &mut P, place: u64) -> Result<Live<R>, Doubt<R>>
        requires place { 0 < place }
        // Its offset is not unsure.
        requires sure { IsSure (R.seen (of_staged self)) }
        ensures set { SetsWord R.obeys_power GATE place result
            (P.asked power.old) (R.seen (of_staged self)) (P.asked power.new)
            (R.seen (after_open result)) }
        ensures tails { tails_after_open result ≡ tails_of_staged self }
        ensures place { IfOk result (λ live. place_of live ≡ place) }
        // The slot is a live entry of its file, at this place and with the request that was staged.
        ensures entry { IfOk result (λ live.
            live_entry (ino_of (words_of (R.seen (of_staged self))))
            (words_of (R.seen (of_live live))) (words_in R.seen (tails_of_staged self))
            ≡ Some (
              place,
              request_of (words_of (R.seen (of_staged self)))
                  (words_in R.seen (tails_of_staged self)),
            )) }
        ensures grant { grant_of (words_of (R.seen (after_open result))) ≡
            grant_of (words_of (R.seen (of_staged self))) }
        ensures cause { HasCause (R.faults (of_staged self)) (R.faults (after_open result)) result }
    {
        let Staged {
            mut region,
            grant,
            tails,
        } = self;
        match set_word(&mut region, power, GATE, place) {
            Ok(()) => Ok(Live {
                region,
                grant,
                place,
                tails,
            }),
            Err(_) => Err(Doubt {
                region,
                grant,
                tails,
            }),
        }
    }

    /// Gives the request up: all its slots, the head first. Writes nothing.
    pub fn cancel(self) -> FixedVec<Slot<R>, QUEUE_SLOTS>
        ensures { of_slots result ≡ of_staged self ∷ tails_of_staged self }
    {
        let Staged { region, tails, .. } = self;
        all_slots(Slot { region }, tails)
    }

    /// Gives the regions back as they are, the head's first.
    pub fn into_parts(self) -> FixedVec<R, QUEUE_SLOTS>
        ensures { items_of result ≡ of_staged self ∷ tails_of_staged self }
    {
        let Staged { region, tails, .. } = self;
        all_regions(region, tails)
    }
}
