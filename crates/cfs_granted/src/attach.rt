//! Grants are attached.

ghost use Rattle.cfs_active.specs.Memory.{words_seen};
ghost use Rattle.std.specs.Prelude.{◌≡◌, ◌<◌, ◌^◌, IfErr, IfOk, true};
ghost use Rattle.cfs_granted.specs.Attaching.{Attaches, IsRefused, LifeAttaches, empty_life, with_grant};
ghost use Rattle.cfs_granted.specs.View.{file_view, is_here, life_view};

use crate::busy::AttachRefusal;
use crate::file_state::FileState;
use crate::free::Free;
use crate::life::Life;
use crate::rows::stands;
use cfs_active::ActiveInode;
use cfs_file::NoMemory;
use cfs_grants::Grant;
use std::alloc::Global;
use std::mem;

impl FileState {
    /// Attaches a grant. A free record becomes the life of its inode number over an empty file,
    /// which takes memory. It answers `Busy` exactly where the record has a file of another number,
    /// or a grant with the same number or queue; where it is free and had a file of this number or
    /// a greater one; and where its file is being emptied. Then, and without memory, nothing has
    /// changed.
    pub fn attach(&mut self, alloc: Global, grant: Grant) -> Result<(), AttachRefusal>
        requires here { is_here (file_view self.old) ≡ true }
        requires number { grant.ino < 2 ^ 32 }
        requires queue { grant.queue < 64 }
        ensures attaches { Attaches grant result (file_view self.old) (file_view self.new) }
        ensures here { is_here (file_view self.new) ≡ true }
    {
        match mem::replace(self, FileState::Moving) {
            FileState::Free(free) => match free.begin(alloc, grant) {
                Ok(life) => {
                    *self = FileState::Life(life);
                    Ok(())
                }
                Err((free, refusal)) => {
                    *self = FileState::Free(free);
                    Err(refusal)
                }
            },
            FileState::Life(mut life) => {
                let attached = life.attach(grant);
                *self = FileState::Life(life);
                attached
            }
            FileState::Ending(ending) => {
                let has = ending.ino();
                *self = FileState::Ending(ending);
                Err(AttachRefusal::Busy { has })
            }
            FileState::Moving => unreachable!(),
        }
    }
}

impl Free {
    /// The life of an empty file with its first grant.
    fn begin(self, alloc: Global, grant: Grant) -> Result<Life, (Free, AttachRefusal)>
        requires number { grant.ino < 2 ^ 32 }
        requires queue { grant.queue < 64 }
        ensures life { IfOk result (λ life. (self.latest < grant.ino)
            × (life_view life ≡ with_grant grant (empty_life grant.ino (words_seen self.size)))) }
        ensures back { IfErr result (λ failed. failed.0 ≡ self) }
        ensures why { IfErr result (λ failed. IsRefused grant self.latest failed.1) }
    {
        if grant.ino <= self.latest {
            let has = self.latest;
            return Err((self, AttachRefusal::Busy { has }));
        }
        let Free { latest, size } = self;
        match ActiveInode::new(alloc, grant.ino, size) {
            Ok(active) => {
                let mut life = Life::ungranted(alloc, active);
                life.grants.give(grant);
                Ok(life)
            }
            Err((size, NoMemory)) => Err((Free { latest, size }, AttachRefusal::NoMemory)),
        }
    }
}

impl Life {
    /// Attaches a further grant for the file. It answers `Busy` exactly where it is for another
    /// inode number, or its number or queue is taken, and then nothing has changed.
    pub fn attach(&mut self, grant: Grant) -> Result<(), AttachRefusal>
        requires queue { grant.queue < 64 }
        ensures { LifeAttaches grant result (life_view self.old) (life_view self.new) }
    {
        let has = self.active.ino();
        if has != grant.ino
            || self.grants.get(grant.queue).is_some()
            || stands(self.grants.rows(), grant.number)
        {
            return Err(AttachRefusal::Busy { has });
        }
        self.grants.give(grant);
        Ok(())
    }
}
