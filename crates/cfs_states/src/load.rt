//! The states of files are made of what their records have.
ghost use Rattle.std.specs.Prelude.{◌≡◌, ◌++◌, ◌∷◌, ℕ, [], List, IfOk, OnOk, map};
ghost use Rattle.std.specs.List.{All};
ghost use Rattle.std.specs.List.Sorted.{IsNonDecreasingBy, IsPermutation};
ghost use Rattle.cfs_block.specs.MemoryBlocks.{seen_of};
ghost use Rattle.cfs_inode.specs.New.{MappedSeen, told_mapped};
ghost use Rattle.cfs_active.specs.Memory.{words_seen};
ghost use Rattle.cfs_active.specs.View.{active_view};
ghost use Rattle.cfs_states.specs.Loads.{AreOrders, sizes_in, states_by, states_in};
ghost use Rattle.cfs_states.specs.Shares.{CanLoad, CanLoadShare, IsOrderOf, IsOrderOfShare};
ghost use Rattle.cfs_states.specs.Shares.{loaded_as, region_of, share_view, state_of};

use crate::share::Share;
use cfs_active::ActiveInode;
use cfs_block::MemBlock;
use cfs_file::NoMemory;
use cfs_inode::Mapped;
use cfs_pmem::MemRegion;
use std::alloc::Global;

/// Sorts blocks by their numbers in their file.
fn sort_blocks(blocks: &mut Vec<Mapped<MemBlock>>)
    ensures same { IsPermutation blocks.old.items blocks.new.items }
    ensures ascending { IsNonDecreasingBy (λ mapped. mapped.at) blocks.new.items }
{
    blocks.sort_unstable_by_key(|mapped| mapped.at);
}

/// The state of a stored file with this size region and these blocks, in any order.
fn load_file(
    alloc: Global,
    ino: u64,
    size: MemRegion,
    mut blocks: Vec<Mapped<MemBlock>>,
) -> Result<ActiveInode, NoMemory>
    requires { CanLoad ino (words_seen size) (map (told_mapped seen_of) blocks.items) }
    ensures { IfOk result (λ active. (ordered : List MappedSeen) →
        IsOrderOf ino (map (told_mapped seen_of) blocks.items) ordered →
        active_view active ≡ loaded_as (words_seen size) ordered ino) }
{
    sort_blocks(&mut blocks);
    let stored = size.words()[0];
    match ActiveInode::loaded(alloc, ino, size, stored, blocks) {
        Ok(active) => Ok(active),
        Err((_, _, error)) => Err(error),
    }
}

/// By record: the state of its file where it has one, and its size region where it has none.
#[derive(Drop)]
pub struct Loaded {
    pub states: Vec<Option<ActiveInode>>,
    pub sizes: Vec<Option<MemRegion>>,
}

impl Loaded {
    /// Adds that of one more record.
    fn add(&mut self, alloc: Global, share: Share) -> Result<(), NoMemory>
        requires { CanLoadShare (share_view share) }
        ensures states { OnOk result ((ordered : List MappedSeen) →
            IsOrderOfShare (share_view share) ordered →
            states_in self.new ≡ states_in self.old ++ state_of (share_view share) ordered ∷ []) }
        ensures sizes { OnOk result
            (sizes_in self.new ≡ sizes_in self.old ++ region_of (share_view share) ∷ []) }
    {
        let Share {
            size,
            owner,
            blocks,
        } = share;
        match owner {
            Some(ino) => {
                let active = load_file(alloc, ino, size, blocks)?;
                self.states.push(Some(active))?;
                self.sizes.push(None)?;
            }
            None => {
                self.states.push(None)?;
                self.sizes.push(Some(size))?;
            }
        }
        Ok(())
    }
}

/// The states of all files, and the size regions of the other records.
pub fn load_all(alloc: Global, shares: Vec<Share>) -> Result<Loaded, NoMemory>
    requires { All (λ share. CanLoadShare (share_view share)) shares.items }
    ensures states { IfOk result (λ loaded. (ordered : ℕ → List MappedSeen) →
        AreOrders 0 (map share_view shares.items) ordered →
        states_in loaded ≡ states_by 0 (map share_view shares.items) ordered) }
    ensures sizes { IfOk result (λ loaded.
        sizes_in loaded ≡ map region_of (map share_view shares.items)) }
{
    let mut loaded = Loaded {
        states: Vec::new(alloc),
        sizes: Vec::new(alloc),
    };
    for share in shares {
        loaded.add(alloc, share)?;
    }
    Ok(loaded)
}
