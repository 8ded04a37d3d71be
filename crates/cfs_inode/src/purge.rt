//! The state of a file that is no longer in the tree is emptied.

ghost use Rattle.std.specs.Prelude.{◌≡◌, ◌<◌, [], false, length, None, Some};
ghost use Rattle.cfs_file.specs.declared.sizes.TheConstants.{FILE_BLOCKS};
ghost use Rattle.cfs_pmem.specs.Images.{words_of};
ghost use Rattle.cfs_tracker.specs.Purge.{is_in_use, next_kept};
ghost use Rattle.cfs_tracker.specs.View.{view_of};
ghost use Rattle.cfs_inode.specs.Purges.{IsEmptyState, IsZero, PurgeStands, Purges, StandsEmpty};
ghost use Rattle.cfs_inode.specs.Purges.{TellsZero, purge_end};
ghost use Rattle.cfs_inode.specs.New.{stored_state};
ghost use Rattle.cfs_inode.specs.View.{state_view};

use crate::purge_answer::PurgeAnswer;
use crate::size::{is_right, set_size};
use crate::size_answer::SizeAnswer;
use crate::state::InodeState;
use cfs_block::{Block, FreeBlock, retag};
use cfs_pmem::{Power, Region};

impl<R: Region + Drop, B: Block + Drop> InodeState<R, B> {
    /// One step by which the state of a file that is no longer in the tree is emptied. It answers
    /// `InUse` exactly where a change or a read is pending, a request is in doubt, or a block is
    /// with a job or in a caller's hands. Else the lowest block that is kept is `Freed`: its tag is
    /// taken away, in two writing steps. Where none is kept, the size word is set to 0, in two
    /// writing steps or none where it is 0 in every image, and all is `Done`: it is the state of an
    /// empty file without blocks. `Failed` comes for a device fault alone, and then the same step
    /// is to be tried again. It walks the blocks of the file.
    pub fn purge<P: Power>(&mut self, power: &mut P) -> PurgeAnswer<B>
        requires { 0 < length (words_of (state_view R.seen B.seen self.old).size) }
        ensures purges { Purges R.obeys_power B.obeys_power B.keeps_refused
            (purge_end B.seen result) (P.asked power.old) (state_view R.seen B.seen self.old)
            (P.asked power.new) (state_view R.seen B.seen self.new) }
        ensures tells { TellsZero (state_view R.seen B.seen self.old) →
            TellsZero (state_view R.seen B.seen self.new) }
        ensures stands { PurgeStands (purge_end B.seen result)
            (state_view R.seen B.seen self.old) (state_view R.seen B.seen self.new) }
    {
        if self.tracker.is_in_use() {
            return PurgeAnswer::InUse;
        }
        match self.tracker.next_kept() {
            Some(block) => self.purge_block(power, block),
            None => self.purge_size(power),
        }
    }

    /// Takes the tag of the lowest block away that is kept.
    fn purge_block<P: Power>(&mut self, power: &mut P, block: u64) -> PurgeAnswer<B>
        requires unused { is_in_use (view_of self.old.tracker) ≡ false }
        requires lowest { next_kept (view_of self.old.tracker) ≡ Some block }
        requires file { block < FILE_BLOCKS }
        ensures { Purges R.obeys_power B.obeys_power B.keeps_refused
            (purge_end B.seen result) (P.asked power.old) (state_view R.seen B.seen self.old)
            (P.asked power.new) (state_view R.seen B.seen self.new) }
    {
        let Some(mut home) = self.tracker.take_block(block) else {
            unreachable!()
        };
        match retag(&mut home, power, 0) {
            Ok(()) => {
                self.tracker.untagged(block, None);
                PurgeAnswer::Freed(FreeBlock::new(home))
            }
            Err(_) => {
                self.tracker.untagged(block, Some(home));
                PurgeAnswer::Failed
            }
        }
    }

    /// Sets the size word to 0, and forgets the file.
    fn purge_size<P: Power>(&mut self, power: &mut P) -> PurgeAnswer<B>
        requires unused { is_in_use (view_of self.old.tracker) ≡ false }
        requires bare { next_kept (view_of self.old.tracker) ≡ None }
        requires sized { 0 < length (words_of (state_view R.seen B.seen self.old).size) }
        ensures { Purges R.obeys_power B.obeys_power B.keeps_refused
            (purge_end B.seen result) (P.asked power.old) (state_view R.seen B.seen self.old)
            (P.asked power.new) (state_view R.seen B.seen self.new) }
    {
        let right = is_right(self.tracker.size(), 0);
        match set_size(&mut self.size, power, right, 0) {
            SizeAnswer::Set => {
                self.tracker.emptied();
                PurgeAnswer::Done
            }
            SizeAnswer::Unwritten => PurgeAnswer::Failed,
            SizeAnswer::Unkept => {
                self.tracker.zero_unsure();
                PurgeAnswer::Failed
            }
        }
    }

    /// The state of an empty file without blocks, whose size word is 0 in every image, becomes that
    /// of another inode number. No device is asked for a step.
    pub fn begin(&mut self, ino: u64)
        requires empty { IsEmptyState (state_view R.seen B.seen self.old) }
        requires zero { IsZero (state_view R.seen B.seen self.old).size }
        ensures view { state_view R.seen B.seen self.new ≡
            stored_state ino (state_view R.seen B.seen self.old).size 0 [] }
        ensures stands { StandsEmpty (state_view R.seen B.seen self.new) }
    {
        self.ino = ino;
    }
}
