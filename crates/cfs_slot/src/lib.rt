//! Slots: a request is staged behind a closed gate, and opened whole by one word.
//!
//! A slot is one region. Its type says how far its request has come: `Slot` is closed, `Staged`
//! holds a request that is persisted whole behind the closed gate, `Live` is open, and of a `Doubt`
//! nobody knows whether a crash leaves it open. A write of more than 4096 bytes takes several
//! slots: `Part`s, its tails, are staged first, and then the head, which has them from then on and
//! is alone in having a gate. Every call writes the slot's own region alone and takes no memory.
#![tactic(auto)]

mod doubt;
mod fields;
mod layout;
mod live;
mod metered;
mod part;
mod reading;
mod recovery;
mod slot;
mod slots;
mod staged;
mod staging;

pub use doubt::Doubt;
pub use fields::Found;
pub use layout::{
    FIRST_SLOT, GATE, GRANT, INO, KIND, LONG_WRITE, MARK, MOST_TAILS, OFFSET, PAYLOAD, QUEUE_SLOTS,
    SLOT_WORDS, TAIL, TAILS_UNIT, TRUNCATE, WRITE,
};
pub use live::Live;
pub use metered::{stage_metered, stage_with_stop};
pub use part::Part;
pub use recovery::found;
pub use slot::Slot;
pub use staged::Staged;
pub use staging::{is_long, is_stageable, staged_payload};
