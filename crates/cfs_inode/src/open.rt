//! The gate of an admission.

ghost use Rattle.std.specs.Prelude.{◌≡◌, ◌+◌, ◌<◌, ◌^◌, ◌∷◌, map, vec_capacity, vec_len};
ghost use Rattle.cfs_file.specs.Span.{span};
ghost use Rattle.cfs_core.specs.Medium.{placed};
ghost use Rattle.cfs_pmem.specs.Images.{IsSure, words_of};
ghost use Rattle.cfs_slot.specs.Regions.{of_staged, tails_of_staged, words_in};
ghost use Rattle.cfs_slot.specs.Words.{grant_of, ino_of, request_of};
ghost use Rattle.cfs_tracker.specs.Admit.{MayAdmit};
ghost use Rattle.cfs_tracker.specs.View.{view_of};
ghost use Rattle.cfs_inode.specs.Opening.{AdmitMakes, Opens, is_kept};
ghost use Rattle.cfs_inode.specs.View.{state_view};

use crate::state::InodeState;
use cfs_block::Block;
use cfs_file::Request;
use cfs_long::staged_stands_whole;
use cfs_pmem::{Power, Region};
use cfs_slot::Staged;

impl<R: Region + Drop, B: Block + Drop> InodeState<R, B> {
    /// Opens the gate of a change with the next place, in two writing steps, and answers the place.
    /// Refuses for a device fault alone: then the request is in doubt.
    pub(crate) fn open<P: Power>(
        &mut self,
        power: &mut P,
        request: &Request,
        staged: Staged<R>,
    ) -> Result<u64, ()>
        requires admits { MayAdmit (view_of self.old.tracker) request.now }
        requires places { (view_of self.old.tracker).count + 1 < 2 ^ 64 }
        requires room { vec_len self.old.tracker.entries < vec_capacity self.old.tracker.entries }
        // The slots hold the request, of this file, and at its place.
        requires file { ino_of (words_of (R.seen (of_staged staged))) ≡ self.old.ino }
        requires holds { request_of (words_of (R.seen (of_staged staged)))
            (words_in R.seen (tails_of_staged staged)) ≡
            placed (span request.now (view_of self.old.tracker).long) request.now }
        requires sure { IsSure (R.seen (of_staged staged)) }
        ensures opens { Opens R.obeys_power request.now
            (grant_of (words_of (R.seen (of_staged staged))))
            (map R.seen (of_staged staged ∷ tails_of_staged staged)) result
            (P.asked power.old) (state_view R.seen B.seen self.old)
            (P.asked power.new) (state_view R.seen B.seen self.new) }
        ensures makes { AdmitMakes request.now
            (grant_of (words_of (R.seen (of_staged staged)))) (is_kept result)
            (P.asked power.old) (state_view R.seen B.seen self.old)
            (P.asked power.new) (state_view R.seen B.seen self.new) }
    {
        staged_stands_whole(&staged);
        let grant = staged.grant();
        let place = self.tracker.count() + 1;
        match staged.open_gate(power, place) {
            Ok(live) => Ok(self.tracker.admit(request, grant, live)),
            Err(doubt) => {
                self.tracker.doubt(request, grant, doubt);
                Err(())
            }
        }
    }
}
