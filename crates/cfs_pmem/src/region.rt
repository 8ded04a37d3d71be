//! A region of persistent words.
ghost use Rattle.std.specs.Prelude.{◌≡◌, ◌+◌, ◌^◌, ◌<◌, ◌≤◌, ℕ, Bool, true, false, IsTrue, length, IfOk, OnOk, OnErr};
ghost use Rattle.std.proofs.Math.ListN.{get_or};
ghost use Rattle.cfs_pmem.specs.Asks.{AsksOnce, AsksSome};
ghost use Rattle.cfs_pmem.specs.Faults.{HasCause};
ghost use Rattle.cfs_pmem.specs.Images.{WordStep, Seen, devices_of, words_of, wrote, failed, kept};
ghost use Rattle.cfs_pmem.specs.WordOps.{SetsWord, WritesWords};

use crate::fault::DeviceFault;
use crate::power::Power;

/// A device of 64-bit words. A word is written whole, and stays through a crash once a later
/// `persist` has succeeded.
/// Each call asks the power for one step, and answers a fault only where its count of faults rose.
pub trait Region {
    /// Its devices and its writing steps so far, with the words after each: so what it holds, and
    /// what a crash may leave.
    ghost seen: { Self → Seen WordStep };

    /// How often it has failed, up to the last value of a `u64`.
    ghost faults: { Self → ℕ };

    /// Whether each call asks for one step of this device, and fails exactly where it is refused,
    /// as on a device in memory.
    ghost obeys_power: { Bool };

    /// Its device number, which never changes.
    fn device(&self) -> u32
        ensures { result ≡ (seen self.now).device };

    /// How many words it has, which never changes.
    fn len(&self) -> u32
        ensures { result ≡ length (words_of (seen self.now)) };

    /// Reads a word, by a reading step.
    fn read<P: Power>(&mut self, power: &mut P, at: u32) -> Result<u64, DeviceFault>
        requires { at < length (words_of (seen self.old)) }
        ensures word { IfOk result (λ word. word ≡ get_or (words_of (seen self.old)) at 0) }
        ensures seen { seen self.new ≡ seen self.old }
        ensures asks { AsksSome (devices_of (seen self.old))
            (P.asked power.old) (P.asked power.new) }
        ensures asked { IsTrue obeys_power →
            AsksOnce (seen self.old).device false result (P.asked power.old) (P.asked power.new) }
        ensures cause { HasCause (faults self.old) (faults self.new) result };

    /// Writes a word, by a writing step. A crash may leave it or an earlier one until a `persist`
    /// has succeeded.
    fn write<P: Power>(&mut self, power: &mut P, at: u32, word: u64) -> Result<(), DeviceFault>
        requires { at < length (words_of (seen self.old)) }
        ensures ok { OnOk result (seen self.new ≡ wrote at word (seen self.old)) }
        ensures err { OnErr result (seen self.new ≡ failed (seen self.old)) }
        ensures asks { AsksSome (devices_of (seen self.old))
            (P.asked power.old) (P.asked power.new) }
        ensures asked { IsTrue obeys_power →
            AsksOnce (seen self.old).device true result (P.asked power.old) (P.asked power.new) }
        ensures cause { HasCause (faults self.old) (faults self.new) result };

    /// Makes every word durable, by a writing step: behind it the words now are all that a crash
    /// may leave.
    fn persist<P: Power>(&mut self, power: &mut P) -> Result<(), DeviceFault>
        ensures ok { OnOk result (seen self.new ≡ kept (seen self.old)) }
        ensures err { OnErr result (seen self.new ≡ failed (seen self.old)) }
        ensures asks { AsksSome (devices_of (seen self.old))
            (P.asked power.old) (P.asked power.new) }
        ensures asked { IsTrue obeys_power →
            AsksOnce (seen self.old).device true result (P.asked power.old) (P.asked power.new) }
        ensures cause { HasCause (faults self.old) (faults self.new) result };
}

/// Sets a word and persists it: two writing steps, or as many as there are up to the one that
/// fails.
#[inline(always)]
pub fn set_word<R: Region, P: Power>(
    region: &mut R,
    power: &mut P,
    at: u32,
    word: u64,
) -> Result<(), DeviceFault>
    requires { at < length (words_of (R.seen region.old)) }
    ensures set { SetsWord R.obeys_power at word result
        (P.asked power.old) (R.seen region.old) (P.asked power.new) (R.seen region.new) }
    ensures cause { HasCause (R.faults region.old) (R.faults region.new) result }
{
    region.write(power, at, word)?;
    region.persist(power)?;
    Ok(())
}

/// Writes `words` from the place `from` on, one after another: a writing step a word, or as many as
/// there are up to one that fails.
#[inline(always)]
pub fn write_words<R: Region, P: Power>(
    region: &mut R,
    power: &mut P,
    from: u32,
    words: &[u64],
) -> Result<(), DeviceFault>
    requires within { from + length words.now ≤ length (words_of (R.seen region.old)) }
    requires fits { from + length words.now < 2 ^ 32 }
    ensures written { WritesWords R.obeys_power from words.now result
        (P.asked power.old) (R.seen region.old) (P.asked power.new) (R.seen region.new) }
    ensures cause { HasCause (R.faults region.old) (R.faults region.new) result }
{
    for (i, word) in words.iter().enumerate() {
        region.write(power, from + i as u32, *word)?;
    }
    Ok(())
}
