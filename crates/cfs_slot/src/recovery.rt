//! What recovery reads of a slot.
ghost use Rattle.std.specs.Prelude.{◌≡◌, [], ◌∷◌, length, IsTrue, IfOk};
ghost use Rattle.cfs_pmem.specs.Faults.{HasCause};
ghost use Rattle.cfs_pmem.specs.Images.{words_of, IsImage};
ghost use Rattle.cfs_pmem.specs.Moments.{Moments};
ghost use Rattle.cfs_pmem.specs.WordOps.{DoesWords};
ghost use Rattle.cfs_slot.specs.Operations.{found_ops};
ghost use Rattle.cfs_slot.specs.Words.{found_of};

use crate::fields::Found;
use crate::layout::{GATE, LONG_WRITE, PAYLOAD, TAILS_UNIT};
use cfs_file::KIND_UNIT;
use cfs_pmem::{DeviceFault, Power, Region};

/// Reads words 0 to 5 of a slot, each once, whatever it holds. Makes no writing step.
pub fn found<R: Region, P: Power>(region: &mut R, power: &mut P) -> Result<Found, DeviceFault>
    requires { length (words_of (R.seen region.old)) ≡ 518 }
    ensures fields { IfOk result (λ found. found ≡ found_of (words_of (R.seen region.old))) }
    ensures seen { R.seen region.new ≡ R.seen region.old }
    ensures does { IsTrue R.obeys_power → DoesWords found_ops result
        (P.asked power.old) (R.seen region.old) (P.asked power.new) (R.seen region.new) }
    ensures moments { Moments IsImage (IsImage (R.seen region.old).history)
        (P.asked power.old) (R.seen region.old) (P.asked power.new) (R.seen region.new) }
    ensures cause { HasCause (R.faults region.old) (R.faults region.new) result }
{
    let mut words = [0; 6];
    for at in GATE..PAYLOAD {
        words[at as usize] = region.read(power, at)?;
    }
    let [gate, mark, ino, offset, word, grant] = words;
    let kind = word % TAILS_UNIT / KIND_UNIT;
    let count = word % KIND_UNIT;
    Ok(Found {
        gate,
        mark,
        ino,
        offset,
        kind,
        count: if kind == LONG_WRITE { count + 1 } else { count },
        grant,
        tails: word / TAILS_UNIT,
    })
}
