//! The slots, and the live entries that they hold.
ghost use Rattle.std.specs.Prelude.{All, ◌≡◌, ◌<◌, ◌≤◌, ◌^◌, ◌&&◌, ◌||◌, ◌==◌, IfErr, IfOk, None};
ghost use Rattle.std.specs.Prelude.{OnOk};
ghost use Rattle.std.specs.Prelude.{is_some, length, nat_eq, nat_lt, not, position};
ghost use Rattle.std.specs.HashMap.{get};
ghost use Rattle.std.specs.List.{position_or_len};
ghost use Rattle.std.specs.Option.{option_map_or};
ghost use Rattle.cfs_image.specs.Checks.{damage_of};
ghost use Rattle.cfs_survey.specs.Live.{entry_in, in_order, is_before, live_entries, put_live};
ghost use Rattle.cfs_survey.specs.Refusals.{Refuses};
ghost use Rattle.cfs_survey.specs.Slots.{slots_checks};

use crate::entries::check_slots;
use crate::heads::{HEAD_WORDS, is_live_entry};
use crate::live_entry::LiveEntry;
use crate::refusal::SurveyRefusal;
use cfs_dir::Node;
use indexmap::IndexMap;
use std::alloc::{AllocFailed, Global};

/// The live entry in a slot.
fn entry_in(nodes: &[Node], slots: &[[u64; HEAD_WORDS]], slot: u32) -> Option<LiveEntry>
    requires { slot < length slots.now }
    ensures { result ≡ entry_in nodes.now slots.now slot }
{
    let words = &slots[slot as usize];
    if is_live_entry(nodes, words) {
        return Some(LiveEntry {
            ino: words[2],
            gate: words[0],
            slot,
        });
    }
    None
}

/// Whether an entry comes before another one.
fn is_before(entry: &LiveEntry, other: &LiveEntry) -> bool
    ensures { result ≡ is_before entry.now other.now }
{
    entry.ino < other.ino || entry.ino == other.ino && entry.gate < other.gate
}

/// The first of these entries that does not come before this one.
fn first_behind(entries: &[LiveEntry], entry: &LiveEntry) -> Option<usize>
    ensures { result ≡ position (λ other. not (is_before other entry.now)) entries.now }
{
    entries.iter().position(|other| !is_before(other, entry))
}

/// The index of that entry, or of the place behind the last.
fn index_for(entries: &[LiveEntry], entry: &LiveEntry) -> usize
    ensures index { result ≡
        position_or_len (λ other. not (is_before other entry.now)) entries.now }
    ensures within { result ≤ length entries.now }
{
    first_behind(entries, entry).unwrap_or(entries.len())
}

/// Puts an entry where it belongs.
fn put_live(entries: &mut Vec<LiveEntry>, entry: LiveEntry) -> Result<(), AllocFailed<LiveEntry>>
    ensures { OnOk result (entries.new.items ≡ put_live entry entries.old.items) }
{
    let at = index_for(entries, &entry);
    entries.insert(at, entry)?;
    Ok(())
}

/// The same, where there is one.
fn put_some(
    entries: &mut Vec<LiveEntry>,
    entry: Option<LiveEntry>,
) -> Result<(), AllocFailed<LiveEntry>>
    ensures { OnOk result (entries.new.items ≡
        option_map_or (λ entry. put_live entry entries.old.items) entry entries.old.items) }
{
    match entry {
        Some(entry) => put_live(entries, entry),
        None => Ok(()),
    }
}

/// The live entries of all slots, by inode number and gate.
fn gather(
    alloc: Global,
    nodes: &[Node],
    slots: &[[u64; HEAD_WORDS]],
) -> Result<Vec<LiveEntry>, AllocFailed<LiveEntry>>
    requires { length slots.now ≤ 2 ^ 31 }
    ensures { IfOk result (λ entries. entries.items ≡ in_order (live_entries nodes.now slots.now)) }
{
    let mut entries = Vec::new(alloc);
    for slot in (0..slots.len() as u32).rev() {
        put_some(&mut entries, entry_in(nodes, slots, slot))?;
    }
    Ok(entries)
}

/// The live entries of all files, by inode number and then by gate. The slots are those of all
/// queues, at most 2^31, of each the words before its payload; the first begins at this offset of
/// an image, below 2^32. `blocks` has the block of each tag of a file.
///
/// `Damaged` names the first check that fails, slot by slot; slots with a closed gate, or of an
/// inode number that is no file's, are passed over. Takes memory for the entries.
pub fn read_slots(
    alloc: Global,
    at: u64,
    nodes: &[Node],
    blocks: &IndexMap<u64, u32>,
    slots: &[[u64; HEAD_WORDS]],
) -> Result<Vec<LiveEntry>, SurveyRefusal>
    requires low { at < 2 ^ 32 }
    requires inos { All (λ node. node.ino < 2 ^ 32) nodes.now }
    requires few { length slots.now ≤ 2 ^ 31 }
    ensures sound { OnOk result (damage_of
        (slots_checks at nodes.now (λ tag. is_some (get nat_eq blocks.now tag)) slots.now) ≡
        None) }
    ensures live { IfOk result
        (λ entries. entries.items ≡ in_order (live_entries nodes.now slots.now)) }
    ensures named { IfErr result (Refuses
        (slots_checks at nodes.now (λ tag. is_some (get nat_eq blocks.now tag)) slots.now)) }
{
    check_slots(at, nodes, blocks, slots)?;
    Ok(gather(alloc, nodes, slots)?)
}
