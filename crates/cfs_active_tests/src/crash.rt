//! What a crash leaves of an inode, and the file in it.

use crate::entry::{Entry, entry_left, word_at};
use cfs_active::ActiveInode;
use cfs_block::{BLOCK_LEN, MemBlock};
use cfs_file::{Bytes, NoMemory, apply};
use cfs_job::Job;
use cfs_pmem::{MemRegion, Pick};
use cfs_slot::{Doubt, Live, QUEUE_SLOTS};
use cfs_tracker::{Cell, Doing, InDoubt, Parts, Pending};
use cfs_vec::FixedVec;
use std::alloc::Global;

/// What a crash left: the bytes of the tagged blocks, and the live entries.
#[derive(Drop)]
struct Left {
    file: Bytes,
    entries: Vec<Entry>,
    pick: u64,
    alloc: Global,
}

impl Left {
    /// The slots of a request lose power.
    fn slots(&mut self, regions: FixedVec<MemRegion, QUEUE_SLOTS>) -> Result<(), NoMemory> {
        if let Some(entry) = entry_left(self.alloc, regions, self.pick)? {
            self.entries.push(entry)?;
        }
        Ok(())
    }

    /// A block loses power, and stands at a block of the file where it is tagged.
    fn block(&mut self, at: u64, mut block: MemBlock) -> Result<(), NoMemory> {
        block.crash(&mut Pick::new(self.pick));
        if block.tag_word() == 0 {
            return Ok(());
        }
        self.file.put(BLOCK_LEN as u64 * at.min(255), block.bytes())
    }

    fn pending(&mut self, pending: Pending<Live<MemRegion>>) -> Result<(), NoMemory> {
        match pending.doing {
            Doing::Waiting(live) | Doing::Covered(live) => self.slots(live.into_parts()),
            Doing::Marking | Doing::Closing | Doing::Out { .. } => Ok(()),
        }
    }

    fn doubt(&mut self, doubt: InDoubt<Doubt<MemRegion>>) -> Result<(), NoMemory> {
        match doubt.slots {
            Some(slots) => self.slots(slots.into_parts()),
            None => Ok(()),
        }
    }

    fn cell(&mut self, at: u64, cell: Cell<MemBlock>) -> Result<(), NoMemory> {
        match cell {
            Cell::Home(block) | Cell::Unsure(block) => self.block(at, block),
            Cell::Hole | Cell::Lent(_) | Cell::Moving(_) => Ok(()),
        }
    }

    fn job(&mut self, job: Job<MemRegion, MemBlock>) -> Result<(), NoMemory> {
        let (live, first, second) = job.into_parts();
        if let Some(lent) = first {
            self.block(lent.at, lent.block)?;
        }
        if let Some(lent) = second {
            self.block(lent.at, lent.block)?;
        }
        self.slots(live.into_parts())
    }

    fn cells(&mut self, cells: Vec<Cell<MemBlock>>) -> Result<(), NoMemory> {
        let mut at: u64 = 0;
        for cell in cells {
            self.cell(at, cell)?;
            at = at.saturating_add(1);
        }
        Ok(())
    }

    fn parts(
        &mut self,
        parts: Parts<Live<MemRegion>, Doubt<MemRegion>, MemBlock>,
    ) -> Result<(), NoMemory> {
        self.cells(parts.cells)?;
        for pending in parts.entries {
            self.pending(pending)?;
        }
        if let Some(doubt) = parts.doubt {
            self.doubt(doubt)?;
        }
        Ok(())
    }

    /// The file: so many stored bytes, taken through the entries in the order of their gates.
    fn recovered(mut self, stored: u64) -> Result<Bytes, NoMemory> {
        self.file.resize(stored)?;
        for gate in 1..20 {
            for entry in &self.entries {
                if entry.gate == gate {
                    apply(&mut self.file, &entry.request)?;
                }
            }
        }
        Ok(self.file)
    }
}

/// The file that a mount finds after a crash of this pick.
pub(crate) fn recovered(alloc: Global, active: ActiveInode, pick: u64) -> Result<Bytes, NoMemory> {
    let mut left = Left {
        file: Bytes::new(alloc),
        entries: Vec::new(alloc),
        pick,
        alloc,
    };
    let (state, jobs) = active.into_parts();
    let (mut size, parts) = state.into_parts();
    size.crash(&mut Pick::new(pick));
    left.parts(parts)?;
    for job in jobs {
        left.job(job)?;
    }
    left.recovered(word_at(size.words(), 0))
}
