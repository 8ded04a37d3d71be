//! The regions and the blocks of parts, gathered.
ghost use Rattle.std.specs.Prelude.{◌≡◌, ◌++◌, [], OnOk, map};
ghost use Rattle.std.specs.List.{flat_map};
ghost use Rattle.cfs_active.specs.Memory.{words_seen};
ghost use Rattle.cfs_active.specs.View.{active_view};
ghost use Rattle.cfs_block.specs.MemoryBlocks.{number_of, seen_of};
ghost use Rattle.cfs_inode.specs.View.{state_view};
ghost use Rattle.cfs_job.specs.Jobs.{job_view};
ghost use Rattle.cfs_gather.specs.Seens.{blocks_in_active, blocks_in_job, blocks_in_state};
ghost use Rattle.cfs_gather.specs.Seens.{seens_in_active, seens_in_state};

use crate::blocks::{add_cells, add_lent};
use crate::regions::add_region;
use crate::slots::{add_entries, add_in_doubt, add_live};
use cfs_active::ActiveInode;
use cfs_block::MemBlock;
use cfs_file::NoMemory;
use cfs_inode::InodeState;
use cfs_job::Job;
use cfs_pmem::MemRegion;
use std::alloc::Global;

/// The regions and the blocks that were gathered so far, in any order.
#[derive(Drop)]
pub struct Gathered {
    pub regions: Vec<MemRegion>,
    pub blocks: Vec<MemBlock>,
}

impl Gathered {
    ghost use Rattle.cfs_gather.specs.Gathered.{bytes_in, words_in};

    /// None yet.
    pub fn new(alloc: Global) -> Gathered
        ensures regions { words_in result ≡ [] }
        ensures blocks { bytes_in result ≡ [] }
    {
        Gathered {
            regions: Vec::new(alloc),
            blocks: Vec::new(alloc),
        }
    }

    /// Adds those of the state of an inode: of its size word, of what is pending and in doubt, and
    /// of its cells.
    pub fn add_state(&mut self, state: InodeState<MemRegion, MemBlock>) -> Result<(), NoMemory>
        ensures regions { OnOk result (words_in self.new ≡
            words_in self.old ++ seens_in_state (state_view words_seen seen_of state)) }
        ensures blocks { OnOk result (bytes_in self.new ≡
            bytes_in self.old ++ blocks_in_state (state_view words_seen seen_of state)) }
    {
        let (size, parts) = state.into_parts();
        add_region(&mut self.regions, size)?;
        add_entries(&mut self.regions, parts.entries)?;
        add_in_doubt(&mut self.regions, parts.doubt)?;
        add_cells(&mut self.blocks, parts.cells)
    }

    /// Adds those of a job: its slots and its blocks, whatever was done to them.
    pub fn add_job(&mut self, job: Job<MemRegion, MemBlock>) -> Result<(), NoMemory>
        ensures regions { OnOk result (words_in self.new ≡
            words_in self.old ++ (job_view words_seen seen_of number_of job).slots) }
        ensures blocks { OnOk result (bytes_in self.new ≡
            bytes_in self.old ++ blocks_in_job (job_view words_seen seen_of number_of job)) }
    {
        let (live, first, second) = job.into_parts();
        add_live(&mut self.regions, live)?;
        add_lent(&mut self.blocks, first)?;
        add_lent(&mut self.blocks, second)
    }

    /// Adds those of jobs, in order.
    pub fn add_jobs(&mut self, jobs: Vec<Job<MemRegion, MemBlock>>) -> Result<(), NoMemory>
        ensures regions { OnOk result (words_in self.new ≡ words_in self.old
            ++ flat_map (λ job. job.slots) (map (job_view words_seen seen_of number_of) jobs.items)) }
        ensures blocks { OnOk result (bytes_in self.new ≡ bytes_in self.old
            ++ flat_map blocks_in_job (map (job_view words_seen seen_of number_of) jobs.items)) }
    {
        for job in jobs {
            self.add_job(job)?;
        }
        Ok(())
    }

    /// Adds those of an inode in use, and of its jobs that are out.
    pub fn add_active(&mut self, active: ActiveInode) -> Result<(), NoMemory>
        ensures regions { OnOk result (words_in self.new ≡
            words_in self.old ++ seens_in_active (active_view active)) }
        ensures blocks { OnOk result (bytes_in self.new ≡
            bytes_in self.old ++ blocks_in_active (active_view active)) }
    {
        let (state, jobs) = active.into_parts();
        self.add_state(state)?;
        self.add_jobs(jobs)
    }

    /// Adds those of inodes in use, in order.
    pub fn add_inodes(&mut self, inodes: Vec<ActiveInode>) -> Result<(), NoMemory>
        ensures regions { OnOk result (words_in self.new ≡ words_in self.old
            ++ flat_map seens_in_active (map active_view inodes.items)) }
        ensures blocks { OnOk result (bytes_in self.new ≡ bytes_in self.old
            ++ flat_map blocks_in_active (map active_view inodes.items)) }
    {
        for active in inodes {
            self.add_active(active)?;
        }
        Ok(())
    }
}
