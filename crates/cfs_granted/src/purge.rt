//! A record is emptied, whose file is no longer in the tree.

ghost use Rattle.cfs_block.specs.MemoryBlocks.{seen_of};
ghost use Rattle.cfs_active.specs.Memory.{words_seen};
ghost use Rattle.std.specs.Prelude.{◌≡◌, IfErr, IfOk, None, Some, [], true};
ghost use Rattle.cfs_inode.specs.View.{state_view};
ghost use Rattle.cfs_granted.specs.Purging.{Empties, PurgesFile, purge_end};
ghost use Rattle.cfs_granted.specs.Rows.{first_number};
ghost use Rattle.cfs_granted.specs.View.{file_view, is_here, life_view};

use crate::ending::Ending;
use crate::file_state::FileState;
use crate::free::Free;
use crate::life::Life;
use crate::purge_answer::PurgeAnswer;
use crate::rows::first_number;
use cfs_inode::PurgeAnswer as StateAnswer;
use cfs_pmem::Power;
use std::mem;

impl FileState {
    /// One step by which a record becomes free, whose file is no longer in the tree. It answers
    /// `InUse` exactly where a grant stands, with the first one by queue. Else the life of the file
    /// is over, and the lowest block that it has is `Freed`: its tag is taken away, in two writing
    /// steps. Where it has none, the size word is set to 0, in two writing steps or none where it
    /// is 0 in every image, and the record is free: `Done`, as it answers of a free record without
    /// a step. `Failed` comes for a device fault alone, and then the same step is the next one.
    pub fn purge<P: Power>(&mut self, power: &mut P) -> PurgeAnswer
        requires here { is_here (file_view self.old) ≡ true }
        ensures purges { PurgesFile (purge_end result)
            (P.asked power.old) (file_view self.old)
            (P.asked power.new) (file_view self.new) }
        ensures here { is_here (file_view self.new) ≡ true }
    {
        match mem::replace(self, FileState::Moving) {
            FileState::Free(free) => {
                *self = FileState::Free(free);
                PurgeAnswer::Done
            }
            FileState::Life(life) => match life.ended() {
                Ok(ending) => {
                    let (file, answer) = ending.emptied(power);
                    *self = file;
                    answer
                }
                Err((life, number)) => {
                    *self = FileState::Life(life);
                    PurgeAnswer::InUse(number)
                }
            },
            FileState::Ending(ending) => {
                let (file, answer) = ending.emptied(power);
                *self = file;
                answer
            }
            FileState::Moving => unreachable!(),
        }
    }
}

impl Life {
    /// The life is over, where no grant stands. Else it comes back, with the number of the first.
    fn ended(self) -> Result<Ending, (Life, u64)>
        ensures over { IfOk result (λ ending. first_number (life_view self).grants ≡ None) }
        ensures state { IfOk result (λ ending.
            state_view words_seen seen_of ending.state ≡ (life_view self).active.state) }
        ensures jobs { IfOk result (λ ending. (life_view self).active.jobs ≡ []) }
        ensures back { IfErr result (λ failed. (failed.0 ≡ self)
            × (first_number (life_view self).grants ≡ Some failed.1)) }
    {
        if let Some(number) = first_number(self.grants.rows()) {
            return Err((self, number));
        }
        let Life { active, .. } = self;
        let (state, _) = active.into_parts();
        Ok(Ending { state })
    }
}

impl Ending {
    /// One step by which it is emptied, and the record then.
    fn emptied<P: Power>(self, power: &mut P) -> (FileState, PurgeAnswer)
        ensures empties { Empties (purge_end result.1)
            (P.asked power.old) (state_view words_seen seen_of self.state)
            (P.asked power.new) (file_view result.0) }
        ensures here { is_here (file_view result.0) ≡ true }
    {
        let Ending { mut state } = self;
        match state.purge(power) {
            StateAnswer::Freed(block) => {
                (
                    FileState::Ending(Ending { state }),
                    PurgeAnswer::Freed(block),
                )
            }
            StateAnswer::Done => {
                let latest = state.ino();
                let (size, _) = state.into_parts();
                (FileState::Free(Free { latest, size }), PurgeAnswer::Done)
            }
            StateAnswer::InUse => unreachable!(),
            StateAnswer::Failed => (FileState::Ending(Ending { state }), PurgeAnswer::Failed),
        }
    }
}
