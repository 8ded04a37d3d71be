//! Reads are answered.

ghost use Rattle.std.specs.Prelude.{◌≡◌, ℕ, length, true};
ghost use Rattle.cfs_inode.specs.declared.answers.ServeAnswer.TheVariants.{NotYet};
ghost use Rattle.cfs_inode.specs.Serves.{IsRead, Serves, serve_events};

use crate::active::ActiveInode;
use cfs_inode::ServeAnswer;
use cfs_pmem::Power;

impl ActiveInode {
    ghost use Rattle.cfs_active.specs.Makes.{ActiveMakes};
    ghost use Rattle.cfs_active.specs.View.{active_view};

    /// Answers the pending read at a place: fills `out`, which has room for its bytes, with the
    /// stored ones. A sync has none. Each block at home that holds one of them is read once. While
    /// it waits for a change, `out` stays as it is. Fails for a device fault alone: then the read
    /// is pending as before, and `out` may hold any bytes.
    pub fn serve<P: Power>(&mut self, power: &mut P, place: u64, out: &mut [u8]) -> ServeAnswer
        requires { IsRead (active_view self.old).state place
            (length out.old) }
        ensures serves { Serves true place result out.new
            (P.asked power.old) (active_view self.old).state
            (P.asked power.new) (active_view self.new).state }
        ensures jobs { (active_view self.new).jobs ≡
            (active_view self.old).jobs }
        ensures waiting { (before : ℕ) → result ≡ NotYet before → out.new ≡ out.old }
        ensures makes { ActiveMakes (serve_events place result out.new)
            (P.asked power.old) (active_view self.old)
            (P.asked power.new) (active_view self.new) }
    {
        self.state.serve(power, place, out)
    }
}
