//! Answers as text.

use cfs_active::{ApplyAnswer, EndAnswer};
use cfs_block::MemBlock;
use cfs_inode::{AdmitAnswer, CloseAnswer, DispatchAnswer, TrimAnswer};
use cfs_pmem::MemRegion;
use cfs_slot::{QUEUE_SLOTS, Slot, Staged};
use cfs_tracker::{EntryState, Listed};
use cfs_vec::FixedVec;
use std::alloc::{AllocError, Global};

/// The slots of a request.
pub(crate) type Slots = FixedVec<Slot<MemRegion>, QUEUE_SLOTS>;

/// What an admission answers.
pub(crate) fn admitted(
    alloc: Global,
    answer: &AdmitAnswer<Staged<MemRegion>>,
) -> Result<String, AllocError> {
    match answer {
        AdmitAnswer::Admitted {
            place,
            offset,
            count,
            marked,
        } => format!(in alloc; "place={place} off={offset} n={count} noops={marked}"),
        AdmitAnswer::TooBig { length, .. } => format!(in alloc; "too big len={length}"),
        AdmitAnswer::NeedBlocks { need, .. } => format!(in alloc; "needs blocks={need}"),
        AdmitAnswer::Failed { staged: Some(_) } => format!(in alloc; "failed"),
        AdmitAnswer::Failed { staged: None } => format!(in alloc; "in doubt"),
    }
}

/// What a call that gives out a job answers.
pub(crate) fn dispatched(
    alloc: Global,
    answer: &DispatchAnswer<u32>,
) -> Result<String, AllocError> {
    match answer {
        DispatchAnswer::Taken(left) => format!(in alloc; "out left={left}"),
        DispatchAnswer::NotYet(before) => format!(in alloc; "behind {before}"),
        DispatchAnswer::NotWaiting => format!(in alloc; "not waiting"),
    }
}

/// What a step of a job answers.
pub(crate) fn applied(alloc: Global, answer: ApplyAnswer) -> Result<String, AllocError> {
    match answer {
        ApplyAnswer::Made(left) => format!(in alloc; "made left={left}"),
        ApplyAnswer::Failed => format!(in alloc; "failed"),
        ApplyAnswer::NotOut => format!(in alloc; "not out"),
    }
}

/// What the end of a job answers.
pub(crate) fn ended(alloc: Global, answer: &EndAnswer<Slots>) -> Result<String, AllocError> {
    match answer {
        EndAnswer::Retired(slots) => format!(in alloc; "retired slots={}", slots.len()),
        EndAnswer::More => format!(in alloc; "more"),
        EndAnswer::Unfinished(left) => format!(in alloc; "unfinished left={left}"),
        EndAnswer::Failed => format!(in alloc; "failed"),
        EndAnswer::NotOut => format!(in alloc; "not out"),
    }
}

/// What a call that closes a gate answers.
pub(crate) fn closed(alloc: Global, answer: &CloseAnswer<Slots>) -> Result<String, AllocError> {
    match answer {
        CloseAnswer::Closed(slots) => format!(in alloc; "closed slots={}", slots.len()),
        CloseAnswer::Nothing => format!(in alloc; "nothing"),
        CloseAnswer::Failed => format!(in alloc; "failed"),
    }
}

/// What a call that gives up a block answers.
pub(crate) fn trimmed(alloc: Global, answer: &TrimAnswer<MemBlock>) -> Result<String, AllocError> {
    match answer {
        TrimAnswer::Freed(_) => format!(in alloc; "freed"),
        TrimAnswer::Nothing => format!(in alloc; "nothing"),
        TrimAnswer::Failed => format!(in alloc; "failed"),
    }
}

/// What is pending under a grant.
pub(crate) fn listed(alloc: Global, listed: Option<Listed>) -> Result<String, AllocError> {
    let Some(Listed { place, state }) = listed else {
        return format!(in alloc; "none");
    };
    let state = match state {
        EntryState::Waiting => "waiting",
        EntryState::Out => "out",
        EntryState::Noop => "noop",
        EntryState::Doubt => "doubt",
    };
    format!(in alloc; "place={place} {state}")
}
