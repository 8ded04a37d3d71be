//! A region in memory, with what a crash may leave of it.
ghost use Rattle.std.specs.Prelude.{◌≡◌, ◌+◌, ◌-◌, ◌^◌, ◌<◌, ◌∷◌, [], true, length, min, IfOk, IfErr, vec_len};
ghost use Rattle.cfs_pmem.specs.Images.{began, words_of, words_kept, IsImage};
ghost use Rattle.cfs_pmem.specs.Draws.{words_left, after_words};

use crate::fault::DeviceFault;
use crate::history::History;
use crate::pick::Pick;
use crate::power::Power;
use crate::region::Region;
use crate::run::Run;
use std::alloc::{AllocFailed, Global};
use std::marker::Model;

/// A region that keeps a durable and a present copy of its words. It takes no memory once it is
/// made, and a persist copies what was written since the last one.
#[derive(Drop)]
pub struct MemRegion {
    device: u32,
    durable: Vec<u64>,
    present: Vec<u64>,
    dirty: Run,
    history: History,
    faults: u64,
}

impl Model for MemRegion {
    ghost use Rattle.cfs_pmem.specs.Images.{MemoryRegion};

    ghost Value = { MemoryRegion };

    ghost use Rattle.std.specs.Prelude.{[]};
    ghost use Rattle.cfs_pmem.specs.Backed.{IsBacked};

    ghost view = { λ r. record {
      seen = record { device = r.device; also = []; history = r.history };
      faults = r.faults;
    } };

    ghost invariant = { λ r. IsBacked r.history r.dirty r.durable.items r.present.items };
}

impl MemRegion {
    /// A region of these words, which are durable. Without memory for the second copy the words are
    /// given back.
    pub fn new(
        alloc: Global,
        device: u32,
        words: Vec<u64>,
    ) -> Result<MemRegion, AllocFailed<Vec<u64>>>
        requires { vec_len words < 2 ^ 32 }
        ensures ok { IfOk result (λ region.
            region ≡ record { seen = began device words.items; faults = 0 }) }
        ensures err { IfErr result (λ refused. refused.value ≡ words) }
    {
        match Vec::from_slice(alloc, &words) {
            Ok(durable) => Ok(MemRegion {
                device,
                durable,
                dirty: Run::none(words.len() as u32),
                history: History::of(&words),
                present: words,
                faults: 0,
            }),
            Err(_) => Err(AllocFailed { value: words }),
        }
    }

    /// The words now, in order.
    pub fn words(&self) -> &[u64]
        ensures { result.now ≡ words_of self.now.seen }
    {
        &self.present
    }

    /// Loses power: one image is left, word by word as the pick says, and both copies and all that
    /// a later crash may leave are that image.
    /// The clock begins anew.
    pub fn crash(&mut self, pick: &mut Pick)
        ensures image { IsImage self.old.seen.history (words_of self.new.seen) }
        ensures left { self.new.seen ≡ began self.old.seen.device
            (words_left pick.old (words_kept self.old.seen.history) (words_of self.old.seen)) }
        ensures pick { pick.new ≡
            after_words pick.old (words_kept self.old.seen.history) (words_of self.old.seen) }
        ensures faults { self.new.faults ≡ self.old.faults }
    {
        leave(pick, &mut self.durable, &mut self.present);
        self.dirty = Run::none(self.present.len() as u32);
        self.history = History::of(&self.present);
    }

    /// Counts a fault.
    #[cold]
    fn fault(&mut self) -> DeviceFault
        ensures { self.new ≡ record self.old { faults = min (self.old.faults + 1) (2 ^ 64 - 1) } }
    {
        self.faults = self.faults.saturating_add(1);
        DeviceFault
    }
}

/// Replaces both copies by what the pick leaves of them.
fn leave(pick: &mut Pick, durable: &mut Vec<u64>, present: &mut Vec<u64>)
    requires { length durable.old.items ≡ length present.old.items }
    ensures present { present.new.items ≡ words_left pick.old durable.old.items present.old.items }
    ensures durable { durable.new.items ≡ present.new.items }
    ensures size { length present.new.items ≡ length present.old.items }
    ensures pick { pick.new ≡ after_words pick.old durable.old.items present.old.items }
{
    for i in 0..present.len() {
        let word = pick.word(durable[i], present[i]);
        durable[i] = word;
        present[i] = word;
    }
}

impl Region for MemRegion {
    ghost seen = { λ r. r.seen };

    ghost faults = { λ r. r.faults };

    ghost obeys_power = { true };

    fn device(&self) -> u32 {
        self.device
    }

    fn len(&self) -> u32 {
        self.present.len() as u32
    }

    #[inline]
    #[tactic(auto, using(crate::proofs::AskLemmas::asks_one))]
    fn read<P: Power>(&mut self, power: &mut P, at: u32) -> Result<u64, DeviceFault> {
        if !power.step(self.device, false) {
            return Err(self.fault());
        }
        Ok(self.present[at as usize])
    }

    #[inline]
    #[tactic(auto, using(crate::proofs::AskLemmas::asks_one))]
    fn write<P: Power>(&mut self, power: &mut P, at: u32, word: u64) -> Result<(), DeviceFault> {
        if !power.step(self.device, true) {
            self.history.change(&self.present);
            return Err(self.fault());
        }
        self.present[at as usize] = word;
        self.dirty.add(at);
        self.history.change(&self.present);
        Ok(())
    }

    #[inline]
    #[tactic(auto, using(crate::proofs::AskLemmas::asks_one))]
    fn persist<P: Power>(&mut self, power: &mut P) -> Result<(), DeviceFault> {
        if !power.step(self.device, true) {
            self.history.change(&self.present);
            return Err(self.fault());
        }
        self.dirty.range().copy(&self.present, &mut self.durable);
        self.dirty = Run::none(self.present.len() as u32);
        self.history.persist(&self.present);
        Ok(())
    }
}
