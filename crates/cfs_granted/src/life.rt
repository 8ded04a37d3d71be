//! A file with its grants.

ghost use Rattle.cfs_block.specs.MemoryBlocks.{seen_of};
ghost use Rattle.cfs_active.specs.Memory.{words_seen};
ghost use Rattle.cfs_active.specs.View.{active_view};
ghost use Rattle.cfs_inode.specs.View.{state_view};
ghost use Rattle.cfs_granted.specs.Granted.{IsGranted};
ghost use Rattle.cfs_granted.specs.Lending.{IsWithJobs};

use crate::reader::Reader;
use cfs_active::ActiveInode;
use cfs_grants::Grants;

/// The life of a file: its state with the jobs that are out, the grants for it, and under which
/// each pending read was asked.
#[derive(Drop)]
pub struct Life {
    pub(crate) active: ActiveInode,
    pub(crate) grants: Grants,
    pub(crate) readers: Vec<Reader>,
    ghost known: { IsGranted grants readers.items (state_view words_seen seen_of active.state) },
    ghost lent: { IsWithJobs (active_view active) },
}
