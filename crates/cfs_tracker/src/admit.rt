//! A change takes a place, or is in doubt.

ghost use Rattle.std.specs.Prelude.{◌≡◌, ◌↔◌, ◌+◌, ◌<◌, ◌^◌, IsTrue, false, true, nat_le, vec_capacity, vec_len};
ghost use Rattle.cfs_file.specs.declared.entry.Entry.{Entry};
ghost use Rattle.cfs_file.specs.declared.sizes.TheConstants.{LONGEST_FILE};
ghost use Rattle.cfs_file.specs.Span.{EndFits, span};
ghost use Rattle.cfs_core.specs.declared.event.Event.TheVariants as events;
ghost use Rattle.cfs_core.specs.declared.inode_core.Core.{Core};
ghost use Rattle.cfs_core.specs.May.{is_change, may};
ghost use Rattle.cfs_core.specs.After.{after};
ghost use Rattle.cfs_tracker.specs.Admit.{MayAdmit, admitted, bare_needed, doubted, first_unmapped};
ghost use Rattle.cfs_tracker.specs.Admit.{long_after, pending};
ghost use Rattle.cfs_tracker.specs.Follows.{Follows};
ghost use Rattle.cfs_tracker.specs.View.{KeepsRoom, view_of};

use crate::cells::{bare_needed, first_unmapped};
use crate::{Doing, InDoubt, Pending, Tracker};
use cfs_file::{LONGEST_FILE, LONGEST_WRITE, Request, span_of};

fn is_change(request: &Request) -> bool
    ensures { result ≡ is_change request.now }
{
    match request {
        Request::Write { bytes, .. } | Request::Append { bytes } => {
            1 <= bytes.len() && bytes.len() as u64 <= LONGEST_WRITE
        }
        Request::Truncate { .. } => true,
        Request::Read { .. } | Request::Sync => false,
    }
}

impl<S: Drop, D: Drop, B: Drop> Tracker<S, D, B> {
    /// How many places were given. Walks nothing.
    pub fn count(&self) -> u64
        ensures { result ≡ (view_of self.now).count }
    {
        self.count
    }

    /// Whether the file after the request is short enough. Walks nothing.
    pub fn fits(&self, request: &Request) -> bool
        ensures { result ≡ nat_le (long_after (view_of self.now).long request.now) LONGEST_FILE }
    {
        let long = self.long;
        match request {
            Request::Write { offset, bytes } => {
                long <= LONGEST_FILE
                    && *offset <= LONGEST_FILE
                    && bytes.len() as u64 <= LONGEST_FILE - *offset
            }
            Request::Append { bytes } => {
                long <= LONGEST_FILE && bytes.len() as u64 <= LONGEST_FILE - long
            }
            Request::Truncate { length } => *length <= LONGEST_FILE,
            Request::Read { .. } | Request::Sync => long <= LONGEST_FILE,
        }
    }

    /// The first block of the file that the request needs and that no block of the medium is tagged
    /// for in every image. Walks the blocks of the span to the answer.
    pub fn first_unmapped(&self, request: &Request) -> Option<u64>
        requires { EndFits request.now (view_of self.now).long }
        ensures { result ≡ first_unmapped (view_of self.now).cells
            (span request.now (view_of self.now).long) }
    {
        first_unmapped(self.cells.as_slice(), span_of(request, self.long))
    }

    /// How many blocks of the file the request needs that no block of the medium is kept for.
    pub fn bare_needed(&self, request: &Request) -> u64
        requires { EndFits request.now (view_of self.now).long }
        ensures { result ≡ bare_needed (view_of self.now).cells
            (span request.now (view_of self.now).long) }
    {
        bare_needed(self.cells.as_slice(), span_of(request, self.long))
    }

    /// Whether the request may be admitted: nothing is in doubt, and it is a change whose file is
    /// short enough and whose blocks are mapped. Walks the blocks of the span.
    pub fn may_admit(&self, request: &Request) -> bool
        ensures { IsTrue result ↔ MayAdmit (view_of self.now) request.now }
    {
        self.doubt.is_none()
            && is_change(request)
            && self.fits(request)
            && self.first_unmapped(request).is_none()
    }

    /// A change takes the next place: its gate was opened with this number. Answers the place.
    /// Walks nothing.
    pub fn admit(&mut self, request: &Request, grant: u64, slots: S) -> u64
        requires admits { MayAdmit (view_of self.old) request.now }
        requires places { (view_of self.old).count + 1 < 2 ^ 64 }
        requires room { vec_len self.old.entries < vec_capacity self.old.entries }
        ensures place { result ≡ (view_of self.old).count + 1 }
        ensures view { view_of self.new ≡ admitted request.now grant slots (view_of self.old) }
        ensures follows { (core : Core) (entry : Entry) → Follows (view_of self.old) core →
            entry.place ≡ (view_of self.old).count + 1 → entry.request ≡ request.now →
            (may core (events.Admit entry grant true) ≡ true)
            × Follows (view_of self.new) (after core (events.Admit entry grant true)) }
    {
        let pending = self.pending(request, grant, slots);
        self.long = self.long_after(request);
        self.count += 1;
        match self.entries.push(pending) {
            Ok(()) => self.count,
            Err(_) => unreachable!(),
        }
    }

    fn pending(&self, request: &Request, grant: u64, slots: S) -> Pending<S>
        requires admits { MayAdmit (view_of self.now) request.now }
        requires places { (view_of self.now).count + 1 < 2 ^ 64 }
        ensures { result ≡ pending request.now grant slots (view_of self.now) }
    {
        Pending {
            place: self.count + 1,
            grant,
            span: span_of(request, self.long),
            applied: false,
            done: None,
            doing: Doing::Waiting(slots),
            passed: 0,
        }
    }

    fn long_after(&self, request: &Request) -> u64
        requires { MayAdmit (view_of self.now) request.now }
        ensures { result ≡ long_after (view_of self.now).long request.now }
    {
        match request {
            Request::Write { offset, bytes } => self.long.max(*offset + bytes.len() as u64),
            Request::Append { bytes } => self.long.max(self.long + bytes.len() as u64),
            Request::Truncate { length } => *length,
            Request::Read { .. } | Request::Sync => self.long,
        }
    }

    /// The gate of a change failed, and may be open with the number of the next place. Walks
    /// nothing.
    pub fn doubt(&mut self, request: &Request, grant: u64, slots: D)
        requires admits { MayAdmit (view_of self.old) request.now }
        requires places { (view_of self.old).count + 1 < 2 ^ 64 }
        ensures view { view_of self.new ≡ doubted request.now grant slots (view_of self.old) }
        ensures room { KeepsRoom self.old self.new }
        ensures follows { (core : Core) (entry : Entry) → Follows (view_of self.old) core →
            entry.place ≡ (view_of self.old).count + 1 → entry.request ≡ request.now →
            (may core (events.Admit entry grant false) ≡ true)
            × Follows (view_of self.new) (after core (events.Admit entry grant false)) }
    {
        self.doubt = Some(InDoubt {
            place: self.count + 1,
            grant,
            span: span_of(request, self.long),
            slots: Some(slots),
        });
    }
}
