//! The slots of requests are moved to the end of a list, the head's first.
//!
//! They are regions in memory: how much room the slots of one request take is known of these alone.
ghost use Rattle.std.specs.Prelude.{◌≡◌, ◌++◌, OnOk, map};
ghost use Rattle.std.specs.List.{flat_map};
ghost use Rattle.std.specs.Option.{option_map};
ghost use Rattle.cfs_active.specs.Memory.{words_seen};
ghost use Rattle.cfs_inode.specs.View.{held_of, seens_of, told_doing, told_doubt, told_entry};
ghost use Rattle.cfs_gather.specs.Seens.{seens_in_staged, slots_in_doubt, slots_of_doing};
ghost use Rattle.cfs_gather.specs.Seens.{slots_of_entry};

use crate::regions::add_fixed;
use cfs_file::NoMemory;
use cfs_pmem::MemRegion;
use cfs_slot::{Doubt, Live, Staged};
use cfs_tracker::{Doing, InDoubt, Pending};

/// Moves the slots of a live request.
pub fn add_live(regions: &mut Vec<MemRegion>, live: Live<MemRegion>) -> Result<(), NoMemory>
    ensures { OnOk result (map words_seen regions.new.items ≡
        map words_seen regions.old.items ++ (held_of words_seen live).slots) }
{
    add_fixed(regions, live.into_parts())
}

/// Moves the slots of a request whose gate may be open.
pub fn add_doubt(regions: &mut Vec<MemRegion>, doubt: Doubt<MemRegion>) -> Result<(), NoMemory>
    ensures { OnOk result (map words_seen regions.new.items ≡
        map words_seen regions.old.items ++ seens_of words_seen doubt) }
{
    add_fixed(regions, doubt.into_parts())
}

/// Moves the slots of a staged request.
pub fn add_staged(regions: &mut Vec<MemRegion>, staged: Staged<MemRegion>) -> Result<(), NoMemory>
    ensures { OnOk result (map words_seen regions.new.items ≡
        map words_seen regions.old.items ++ seens_in_staged words_seen staged) }
{
    add_fixed(regions, staged.into_parts())
}

/// Moves the slots of staged requests, in order.
pub fn add_all_staged(
    regions: &mut Vec<MemRegion>,
    requests: Vec<Staged<MemRegion>>,
) -> Result<(), NoMemory>
    ensures { OnOk result (map words_seen regions.new.items ≡
        map words_seen regions.old.items
        ++ flat_map (λ staged. seens_in_staged words_seen staged) requests.items) }
{
    for staged in requests {
        add_staged(regions, staged)?;
    }
    Ok(())
}

/// Moves the slots that what is done with a change has.
pub fn add_doing(
    regions: &mut Vec<MemRegion>,
    doing: Doing<Live<MemRegion>>,
) -> Result<(), NoMemory>
    ensures { OnOk result (map words_seen regions.new.items ≡
        map words_seen regions.old.items
        ++ slots_of_doing (told_doing (held_of words_seen) doing)) }
{
    match doing {
        Doing::Waiting(live) | Doing::Covered(live) => add_live(regions, live),
        Doing::Marking | Doing::Out { .. } | Doing::Closing => Ok(()),
    }
}

/// Moves the slots of pending changes, in order.
pub fn add_entries(
    regions: &mut Vec<MemRegion>,
    entries: Vec<Pending<Live<MemRegion>>>,
) -> Result<(), NoMemory>
    ensures { OnOk result (map words_seen regions.new.items ≡
        map words_seen regions.old.items
        ++ flat_map slots_of_entry (map (told_entry (held_of words_seen)) entries.items)) }
{
    for entry in entries {
        add_doing(regions, entry.doing)?;
    }
    Ok(())
}

/// Moves the slots of the request in doubt, where there is one and has them.
pub fn add_in_doubt(
    regions: &mut Vec<MemRegion>,
    doubt: Option<InDoubt<Doubt<MemRegion>>>,
) -> Result<(), NoMemory>
    ensures { OnOk result (map words_seen regions.new.items ≡
        map words_seen regions.old.items
        ++ slots_in_doubt (option_map (told_doubt (seens_of words_seen)) doubt)) }
{
    match doubt {
        Some(
            InDoubt {
                slots: Some(doubt),
                ..
            },
        ) => add_doubt(regions, doubt),
        Some(InDoubt { slots: None, .. }) | None => Ok(()),
    }
}
