//! One inode on devices in memory.

ghost use Rattle.std.specs.Prelude.{◌≡◌, ◌<◌, true};
ghost use Rattle.cfs_core.specs.May.{is_change};
ghost use Rattle.cfs_pmem.specs.Images.{words_of};
ghost use Rattle.cfs_slot.specs.Regions.{of_staged, tails_of_staged, words_in};
ghost use Rattle.cfs_slot.specs.Words.{ino_of, request_of};
ghost use Rattle.cfs_inode.specs.Placing.{IsStagedFor, IsSureFor};
ghost use Rattle.cfs_active.specs.Memory.{words_seen};
ghost use Rattle.cfs_active.specs.View.{change_room};

use crate::staging::{INO, empty_size, staged, stock};
use crate::texts::{Slots, admitted};
use cfs_active::ActiveInode;
use cfs_block::{MemBlock, ZeroBlock};
use cfs_file::{Bytes, NoMemory, Request, apply};
use cfs_inode::{Admission, AdmitAnswer, CloseAnswer};
use cfs_pmem::{MemRegion, Meter};
use cfs_slot::Staged;
use cfs_vec::FixedVec;
use std::alloc::Global;

/// The inode, with the power and a stock of three blocks.
#[derive(Drop)]
pub(crate) struct Rig {
    pub(crate) active: ActiveInode,
    pub(crate) meter: Meter,
    stock: FixedVec<ZeroBlock<MemBlock>, 32>,
    /// So many queues of slots were used.
    queues: u32,
    /// Changes are staged under this grant.
    pub(crate) grant: u64,
    /// The file after the changes that were acknowledged.
    pub(crate) file: Bytes,
    /// The change that is in doubt.
    pub(crate) doubt: Option<Request>,
    pub(crate) alloc: Global,
}

/// What an admission did, and what became of the request that was in doubt.
type Admitted = Admission<Staged<MemRegion>, Slots>;

impl Rig {
    /// An empty file.
    pub(crate) fn new(alloc: Global) -> Result<Rig, NoMemory> {
        let size = empty_size(alloc)?;
        match ActiveInode::new(alloc, INO, size) {
            Ok(active) => Ok(Rig::of(alloc, active)),
            Err(_) => Err(NoMemory),
        }
    }

    fn of(alloc: Global, active: ActiveInode) -> Rig {
        let mut meter = Meter::calm(alloc);
        let stock = stock(alloc, &mut meter, 3);
        Rig {
            active,
            meter,
            stock,
            queues: 0,
            grant: 1,
            file: Bytes::new(alloc),
            doubt: None,
            alloc,
        }
    }

    /// Stages a change in slots of a queue of its own, and admits it.
    pub(crate) fn admit(&mut self, request: Request) -> Result<String, NoMemory> {
        self.active.reserve()?;
        self.queues = self.queues.saturating_add(1);
        let mut calm = Meter::calm(self.alloc);
        let staged = staged(self.alloc, &mut calm, self.queues, &request, self.grant);
        let Some(staged) = staged else {
            return Ok(format!(in self.alloc; "not staged")?);
        };
        let Some(admission) = self.admit_staged(&request, staged) else {
            return Ok(format!(in self.alloc; "no place")?);
        };
        let text = admitted(self.alloc, &admission.answer)?;
        self.note(request, admission)?;
        Ok(text)
    }

    fn admit_staged(&mut self, request: &Request, staged: Staged<MemRegion>) -> Option<Admitted>
        requires room { 0 < change_room self.old.active }
        requires change { is_change request.now ≡ true }
        requires file { ino_of (words_of (words_seen (of_staged staged))) ≡ 2 }
        requires holds { IsStagedFor request.now
            (request_of (words_of (words_seen (of_staged staged)))
            (words_in words_seen (tails_of_staged staged))) }
        requires sure { IsSureFor request.now (words_seen (of_staged staged)) }
    {
        if self.active.count() > 1000 || self.active.ino() != INO {
            return None;
        }
        let admission = self
            .active
            .admit(&mut self.meter, request, staged, &mut self.stock);
        Some(admission)
    }

    /// Keeps what an admission did to the file and to the change in doubt.
    fn note(&mut self, request: Request, admission: Admitted) -> Result<(), NoMemory> {
        if matches!(admission.settled, CloseAnswer::Closed(_)) {
            self.doubt = None;
        }
        match admission.answer {
            AdmitAnswer::Admitted { .. } => apply(&mut self.file, &request),
            AdmitAnswer::Failed { staged: None } => {
                self.doubt = Some(request);
                Ok(())
            }
            AdmitAnswer::Failed { staged: Some(_) }
            | AdmitAnswer::TooBig { .. }
            | AdmitAnswer::NeedBlocks { .. } => Ok(()),
        }
    }
}
