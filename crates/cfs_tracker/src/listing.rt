//! What is pending under a grant.

ghost use Rattle.std.specs.Prelude.{◌≡◌, find, option_copied};
ghost use Rattle.cfs_tracker.specs.Listing.{is_listed, listed_doubt, listing, state_in};
ghost use Rattle.cfs_tracker.specs.View.{view_of};

use crate::{Doing, InDoubt, Pending, Tracker};

/// What becomes of a change that is pending.
#[derive(Clone, Copy, Debug, PartialEq, Eq)]
pub enum EntryState {
    /// No job has it.
    Waiting,
    /// A job has it.
    Out,
    /// It is a no-op.
    Noop,
    /// Its admission failed at its gate.
    Doubt,
}

/// A change that is pending, with its place; of the request in doubt the number in its gate.
#[derive(Clone, Copy, Debug, PartialEq, Eq)]
pub struct Listed {
    pub place: u64,
    pub state: EntryState,
}

fn state_in<S>(doing: &Doing<S>) -> EntryState
    ensures { result ≡ state_in doing.now }
{
    match doing {
        Doing::Waiting(_) | Doing::Marking => EntryState::Waiting,
        Doing::Out { .. } => EntryState::Out,
        Doing::Covered(_) | Doing::Closing => EntryState::Noop,
    }
}

/// The request in doubt, where it came under the grant and stands behind a place.
fn listed_doubt<D>(doubt: &Option<InDoubt<D>>, grant: u64, after: u64) -> Option<Listed>
    ensures { result ≡ listed_doubt doubt.now grant after }
{
    match doubt {
        Some(doubt) if doubt.grant == grant && after < doubt.place => Some(Listed {
            place: doubt.place,
            state: EntryState::Doubt,
        }),
        Some(_) | None => None,
    }
}

impl<S: Drop, D: Drop, B: Drop> Tracker<S, D, B> {
    /// The first change of a grant behind a place: of those that are admitted, else the request in
    /// doubt.
    pub fn listing(&self, grant: u64, after: u64) -> Option<Listed>
        ensures { result ≡ listing (view_of self.now) grant after }
    {
        match self.next_of(grant, after) {
            Some(entry) => Some(Listed {
                place: entry.place,
                state: state_in(&entry.doing),
            }),
            None => listed_doubt(&self.doubt, grant, after),
        }
    }

    fn next_of(&self, grant: u64, after: u64) -> Option<&Pending<S>>
        ensures { option_copied result ≡
            find (λ e. is_listed grant after e) (view_of self.now).entries }
    {
        self.entries
            .iter()
            .find(|entry| entry.grant == grant && after < entry.place)
    }
}
