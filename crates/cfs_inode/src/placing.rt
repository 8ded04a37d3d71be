//! The offset of a staged append.

ghost use Rattle.std.specs.Prelude.{◌≡◌, [], None, true};
ghost use Rattle.cfs_core.specs.May.{is_change};
ghost use Rattle.cfs_pmem.specs.Images.{words_of};
ghost use Rattle.cfs_slot.specs.Regions.{of_staged, tails_of_staged, words_in};
ghost use Rattle.cfs_slot.specs.Words.{request_of};
ghost use Rattle.cfs_tracker.specs.View.{view_of};
ghost use Rattle.cfs_inode.specs.Makes.{CallMakes};
ghost use Rattle.cfs_inode.specs.Placing.{IsOfSame, IsPlaced, IsStagedFor, IsSureFor, Places};
ghost use Rattle.cfs_inode.specs.Placing.{staged_seens};
ghost use Rattle.cfs_inode.specs.View.{state_view};

use crate::state::InodeState;
use cfs_block::Block;
use cfs_file::Request;
use cfs_pmem::{Power, Region};
use cfs_slot::Staged;

impl<R: Region + Drop, B: Block + Drop> InodeState<R, B> {
    /// Sets the offset of a staged append to the length of the file, in two writing steps; a write
    /// and a truncate have theirs. Answers whether it is set: it is not after a device fault alone,
    /// and then it is unsure.
    pub(crate) fn place<P: Power>(
        &self,
        power: &mut P,
        request: &Request,
        staged: &mut Staged<R>,
    ) -> bool
        requires settled { (view_of self.now.tracker).doubt ≡ None }
        requires change { is_change request.now ≡ true }
        requires staged { IsStagedFor request.now
            (request_of (words_of (R.seen (of_staged staged.old)))
            (words_in R.seen (tails_of_staged staged.old))) }
        requires sure { IsSureFor request.now (R.seen (of_staged staged.old)) }
        ensures places { Places R.obeys_power request.now (view_of self.now.tracker).long result
            (P.asked power.old) (staged_seens R.seen staged.old)
            (P.asked power.new) (staged_seens R.seen staged.new) }
        ensures makes { CallMakes []
            (P.asked power.old) (state_view R.seen B.seen self.now)
            (P.asked power.new) (state_view R.seen B.seen self.now) }
        ensures placed { result ≡ true → IsPlaced request.now (view_of self.now.tracker).long
            (R.seen (of_staged staged.new))
            (request_of (words_of (R.seen (of_staged staged.new)))
            (words_in R.seen (tails_of_staged staged.new))) }
        ensures same { result ≡ true →
            IsOfSame (R.seen (of_staged staged.old)) (R.seen (of_staged staged.new)) }
    {
        match request {
            Request::Append { .. } => match staged.set_offset(power, self.tracker.length()) {
                Ok(()) => true,
                Err(_) => false,
            },
            Request::Write { .. } => true,
            Request::Truncate { .. } => true,
            Request::Read { .. } => true,
            Request::Sync => true,
        }
    }
}
