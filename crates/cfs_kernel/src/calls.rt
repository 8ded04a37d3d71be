//! The requests on names.
ghost use Rattle.std.specs.Prelude.{◌≡◌, ◌≢◌, ◌≤◌, ◌+◌, ◌-◌, ◌^◌, ◌↔◌, [], Err, IfOk, IsTrue, None, Ok, OnErr, OnOk, Some, is_some, length, true, false};
ghost use Rattle.cfs_dir.specs.declared.change.Change.TheVariants as changes;
ghost use Rattle.cfs_dir.specs.Moved.{change_of};
ghost use Rattle.cfs_dir.specs.Namespace.{node_at};
ghost use Rattle.cfs_dir.specs.Tree.{CanJoin, CanLeave};
ghost use Rattle.cfs_grants.specs.Grants.{free_queue, grant_at};
ghost use Rattle.cfs_queue.specs.Queue.{out_slots};
ghost use Rattle.cfs_requests.specs.Looks.{makes, moves, opens, removes, unlinks};
ghost use Rattle.cfs_requests.specs.Made.{IfMade};
ghost use Rattle.cfs_requests.specs.Steps.{closes_queue, done, granted, grant_for, makes_directory, moves_node, numbered, open_step, opens_file, remove_step, removes_directory, stepped, unlinks_file};
ghost use Rattle.cfs_kernel.specs.Answers.{ended, gives, opened_change, stored_told, told};
ghost use Rattle.cfs_kernel.specs.Queues.{home_at};
ghost use Rattle.cfs_kernel.specs.States.{after_close, after_make, after_move, after_open, after_remove, counted, kernel_of, names_of, record_of, stored_of, with_grant, IsSpent};
ghost use Rattle.cfs_kernel.specs.Storing.{Performs, Refuses};

use crate::made::Made;
use crate::ns_state::NsState;
use crate::opened::Opened;
use crate::refusal::NsRefusal;
use cfs_cred::Credential;
use cfs_dir::{Node, Path, Tree};
use cfs_grants::Grant;
use cfs_names::StoreRefusal;
use cfs_pmem::{Power, Region};
use cfs_queue::Queue;
use cfs_requests::{
    NameRefusal, Opening, look_to_make, look_to_move, look_to_open, look_to_remove, look_to_unlink,
};
use cfs_words::Flags;

impl<R: Region + Drop> NsState<R> {
    /// Opens a file for a caller, or makes it, with the permission bits `mode`, at most 0o777, and
    /// grants the lowest free queue for it. A file that is made is open in the asked access,
    /// whatever its bits.
    ///
    /// Refused as `open` is: by its words with `Path`; by the tree with `Tree`; where a file would
    /// be made, with NoRecord where all records are used, and with NoNumber where no inode number
    /// is left; and where no queue is free, with NoQueue.
    pub fn open_path<P: Power>(
        &mut self,
        power: &mut P,
        credential: Credential,
        caller: u64,
        path: &Path,
        flags: Flags,
        mode: u16,
    ) -> Result<Opened<R>, NsRefusal>
        requires permissions { mode ≤ 511 }
        ensures refused { (refusal : _) →
            opens (names_of self.old).tree credential path.now flags mode
            (record_of (kernel_of self.old)) ≡ Err refusal →
            Refuses (told (kernel_of self.old) refusal) result
            (P.asked power.old) self.old (P.asked power.new) self.new }
        ensures no_queue { (opening : _) →
            opens (names_of self.old).tree credential path.now flags mode
            (record_of (kernel_of self.old)) ≡ Ok opening →
            free_queue (names_of self.old).grants ≡ None →
            Refuses (NsRefusal.NoQueue (length (names_of self.old).grants)) result
            (P.asked power.old) self.old (P.asked power.new) self.new }
        ensures performed { (opening : _) (number : _) (queue : _) →
            opens (names_of self.old).tree credential path.now flags mode
            (record_of (kernel_of self.old)) ≡ Ok opening →
            free_queue (names_of self.old).grants ≡ Some number →
            home_at (kernel_of self.old).home number ≡ Some queue →
            Performs R.seen R.faults R.obeys_power (is_some (opened_change opening))
            (opened_change opening)
            (gives (kernel_of self.old) caller flags opening number queue)
            (after_open opening
            (gives (kernel_of self.old) caller flags opening number queue).grant
            (kernel_of self.old)) result
            (P.asked power.old) self.old (P.asked power.new) self.new }
        ensures number { IfOk result (λ opened. opened.queue.number ≡ opened.grant.queue) }
        ensures whole { IfOk result (λ opened. out_slots opened.queue ≡ []) }
        ensures step { IfOk result (λ opened.
            stepped (names_of self.old) caller (opens_file credential path.now flags mode)
            (record_of (kernel_of self.old)) ≡ Some (granted opened.grant, names_of self.new)) }
    {
        let rec = self.free_record();
        let looked = look_to_open(self.stored.tree(), credential, path, flags, mode, rec);
        self.open(power, looked, caller, flags)
    }

    /// Opens a file that was looked up.
    fn open<P: Power>(
        &mut self,
        power: &mut P,
        looked: Result<Opening, NameRefusal>,
        caller: u64,
        flags: Flags,
    ) -> Result<Opened<R>, NsRefusal>
        requires joins { IfOk looked (λ opening.
            IfMade opening (CanJoin (names_of self.old).tree)) }
        requires takes { IfOk looked (λ opening.
            IfMade opening (λ node. record_of (kernel_of self.old) ≡ Some node.rec)) }
        ensures refused { (refusal : _) → looked ≡ Err refusal →
            Refuses (told (kernel_of self.old) refusal) result
            (P.asked power.old) self.old (P.asked power.new) self.new }
        ensures no_queue { (opening : _) → looked ≡ Ok opening →
            free_queue (names_of self.old).grants ≡ None →
            Refuses (NsRefusal.NoQueue (length (names_of self.old).grants)) result
            (P.asked power.old) self.old (P.asked power.new) self.new }
        ensures performed { (opening : _) (number : _) (queue : _) → looked ≡ Ok opening →
            free_queue (names_of self.old).grants ≡ Some number →
            home_at (kernel_of self.old).home number ≡ Some queue →
            Performs R.seen R.faults R.obeys_power (is_some (opened_change opening))
            (opened_change opening)
            (gives (kernel_of self.old) caller flags opening number queue)
            (after_open opening
            (gives (kernel_of self.old) caller flags opening number queue).grant
            (kernel_of self.old)) result
            (P.asked power.old) self.old (P.asked power.new) self.new }
        ensures number { IfOk result (λ opened. opened.queue.number ≡ opened.grant.queue) }
        ensures whole { IfOk result (λ opened. out_slots opened.queue ≡ []) }
        ensures step { IfOk result (λ opened.
            open_step (names_of self.old) caller flags
            (free_queue (names_of self.old).grants) looked
            ≡ Some (granted opened.grant, names_of self.new)) }
    {
        let opening = match looked {
            Ok(opening) => opening,
            Err(refusal) => return Err(self.refused(refusal)),
        };
        let Some(queue) = self.queues.free() else {
            let queues = self.queues.count();
            return Err(NsRefusal::NoQueue { queues });
        };
        let Some(place) = self.places.checked_add(1) else {
            return Err(NsRefusal::NoMemory);
        };
        match opening {
            Opening::Found(node) => Ok(self.grant(place, caller, flags, &node, queue)),
            Opening::Made(node) => {
                match self.add_node(power, &node) {
                    Ok(()) => {}
                    Err(refusal) => return Err(stored_told(refusal)),
                }
                Ok(self.grant(place, caller, flags, &node, queue))
            }
        }
    }

    /// Grants a queue that is free for a file, at the next place.
    fn grant(&mut self, place: u64, caller: u64, flags: Flags, node: &Node, queue: u32) -> Opened<R>
        requires free { free_queue (names_of self.old).grants ≡ Some queue }
        requires next { place ≡ (kernel_of self.old).requests + 1 }
        ensures place { result.place ≡ place }
        ensures grant { result.grant ≡
            grant_for (names_of self.old).next_grant queue caller flags node.now }
        ensures rec { result.rec ≡ node.now.rec }
        ensures home { home_at (kernel_of self.old).home queue ≡ Some result.queue }
        ensures number { result.queue.number ≡ queue }
        ensures whole { out_slots result.queue ≡ [] }
        ensures kernel { kernel_of self.new ≡
            counted (with_grant result.grant (kernel_of self.old)) }
        ensures stored { stored_of self.new ≡ stored_of self.old }
    {
        let grant = Grant {
            number: self.granted + 1,
            ino: node.ino,
            queue,
            caller,
            reads: flags.read,
            writes: flags.write,
        };
        let queue = self.queues.give(grant);
        self.granted += 1;
        self.places = place;
        Opened {
            place,
            grant,
            rec: node.rec,
            queue,
        }
    }

    /// Makes a directory, with the permission bits `mode`, at most 0o777.
    ///
    /// Refused as `mkdir` is: by the words of the path with `Path`, by the tree with `Tree`, where
    /// all records are used with NoRecord, and where no inode number is left with NoNumber.
    pub fn make_dir<P: Power>(
        &mut self,
        power: &mut P,
        credential: Credential,
        path: &Path,
        mode: u16,
    ) -> Result<Made, NsRefusal>
        requires permissions { mode ≤ 511 }
        ensures refused { (refusal : _) →
            makes (names_of self.old).tree credential path.now mode (record_of (kernel_of self.old))
            ≡ Err refusal →
            Refuses (told (kernel_of self.old) refusal) result
            (P.asked power.old) self.old (P.asked power.new) self.new }
        ensures performed { (node : _) →
            makes (names_of self.old).tree credential path.now mode (record_of (kernel_of self.old))
            ≡ Ok node →
            Performs R.seen R.faults R.obeys_power true (Some (changes.Create node))
            record { place = (kernel_of self.old).requests + 1; ino = node.ino }
            (after_make node (kernel_of self.old)) result
            (P.asked power.old) self.old (P.asked power.new) self.new }
        ensures step { IfOk result (λ made. (caller : _) →
            stepped (names_of self.old) caller (makes_directory credential path.now mode)
            (record_of (kernel_of self.old)) ≡ Some (numbered made.ino, names_of self.new)) }
    {
        let rec = self.free_record();
        let node = match look_to_make(self.stored.tree(), credential, path, mode, rec) {
            Ok(node) => node,
            Err(refusal) => return Err(self.refused(refusal)),
        };
        let Some(place) = self.places.checked_add(1) else {
            return Err(NsRefusal::NoMemory);
        };
        match self.add_node(power, &node) {
            Ok(()) => {}
            Err(refusal) => return Err(stored_told(refusal)),
        }
        self.places = place;
        Ok(Made {
            place,
            ino: node.ino,
        })
    }

    /// Removes the name of a file. Its record waits until its last grant is closed and it is
    /// purged.
    ///
    /// Refused as `unlink` is: by the words of the path with `Path`, and by the tree with `Tree`.
    pub fn unlink<P: Power>(
        &mut self,
        power: &mut P,
        credential: Credential,
        path: &Path,
    ) -> Result<u64, NsRefusal>
        ensures refused { (refusal : _) →
            unlinks (names_of self.old).tree credential path.now ≡ Err refusal →
            Refuses (told (kernel_of self.old) refusal) result
            (P.asked power.old) self.old (P.asked power.new) self.new }
        ensures performed { (node : _) →
            unlinks (names_of self.old).tree credential path.now ≡ Ok node →
            Performs R.seen R.faults R.obeys_power false (Some (changes.Remove node.rec node.ino))
            ((kernel_of self.old).requests + 1) (after_remove node (kernel_of self.old)) result
            (P.asked power.old) self.old (P.asked power.new) self.new }
        ensures step { IfOk result (λ place. (caller : _) →
            stepped (names_of self.old) caller (unlinks_file credential path.now) None
            ≡ Some (done, names_of self.new)) }
    {
        let looked = look_to_unlink(self.stored.tree(), credential, path);
        self.remove(power, looked)
    }

    /// Removes an empty directory. Its record is free at once.
    ///
    /// Refused as `rmdir` is: by the words of the path, of which the root is one, with `Path`, and
    /// by the tree with `Tree`.
    pub fn remove_dir<P: Power>(
        &mut self,
        power: &mut P,
        credential: Credential,
        path: &Path,
    ) -> Result<u64, NsRefusal>
        ensures refused { (refusal : _) →
            removes (names_of self.old).tree credential path.now ≡ Err refusal →
            Refuses (told (kernel_of self.old) refusal) result
            (P.asked power.old) self.old (P.asked power.new) self.new }
        ensures performed { (node : _) →
            removes (names_of self.old).tree credential path.now ≡ Ok node →
            Performs R.seen R.faults R.obeys_power false (Some (changes.Remove node.rec node.ino))
            ((kernel_of self.old).requests + 1) (after_remove node (kernel_of self.old)) result
            (P.asked power.old) self.old (P.asked power.new) self.new }
        ensures step { IfOk result (λ place. (caller : _) →
            stepped (names_of self.old) caller (removes_directory credential path.now) None
            ≡ Some (done, names_of self.new)) }
    {
        let looked = look_to_remove(self.stored.tree(), credential, path);
        self.remove(power, looked)
    }

    /// Removes a node that was looked up.
    fn remove<P: Power>(
        &mut self,
        power: &mut P,
        looked: Result<Node, NameRefusal>,
    ) -> Result<u64, NsRefusal>
        requires { IfOk looked (CanLeave (names_of self.old).tree) }
        ensures refused { (refusal : _) → looked ≡ Err refusal →
            Refuses (told (kernel_of self.old) refusal) result
            (P.asked power.old) self.old (P.asked power.new) self.new }
        ensures performed { (node : _) → looked ≡ Ok node →
            Performs R.seen R.faults R.obeys_power false (Some (changes.Remove node.rec node.ino))
            ((kernel_of self.old).requests + 1) (after_remove node (kernel_of self.old)) result
            (P.asked power.old) self.old (P.asked power.new) self.new }
        ensures step { IfOk result (λ place.
            remove_step (names_of self.old) looked ≡ Some (done, names_of self.new)) }
    {
        let node = match looked {
            Ok(node) => node,
            Err(refusal) => return Err(self.refused(refusal)),
        };
        let Some(place) = self.places.checked_add(1) else {
            return Err(NsRefusal::NoMemory);
        };
        match self.remove_node(power, &node) {
            Ok(()) => {}
            Err(refusal) => return Err(stored_told(refusal)),
        }
        self.places = place;
        Ok(place)
    }

    /// Moves a file or a directory to another path; a file or an empty directory there is replaced.
    /// A rename of a node to itself takes a place and changes nothing.
    ///
    /// Refused as `rename` is: by the words of the paths, of which the root is one, with `Path`,
    /// and by the tree with `Tree`.
    pub fn rename<P: Power>(
        &mut self,
        power: &mut P,
        credential: Credential,
        from: &Path,
        to: &Path,
    ) -> Result<u64, NsRefusal>
        ensures refused { (refusal : _) →
            moves (names_of self.old).tree credential from.now to.now ≡ Err refusal →
            Refuses (told (kernel_of self.old) refusal) result
            (P.asked power.old) self.old (P.asked power.new) self.new }
        ensures itself { (moved : _) →
            moves (names_of self.old).tree credential from.now to.now ≡ Ok moved →
            node_at (names_of self.old).tree.nodes moved.node.rec ≡ Some moved.node →
            Performs R.seen R.faults R.obeys_power false None
            ((kernel_of self.old).requests + 1) (counted (kernel_of self.old)) result
            (P.asked power.old) self.old (P.asked power.new) self.new }
        ensures moved { (moved : _) →
            moves (names_of self.old).tree credential from.now to.now ≡ Ok moved →
            node_at (names_of self.old).tree.nodes moved.node.rec ≢ Some moved.node →
            Performs R.seen R.faults R.obeys_power false (Some (change_of moved))
            ((kernel_of self.old).requests + 1) (after_move moved (kernel_of self.old)) result
            (P.asked power.old) self.old (P.asked power.new) self.new }
        ensures step { IfOk result (λ place. (caller : _) →
            stepped (names_of self.old) caller (moves_node credential from.now to.now) None
            ≡ Some (done, names_of self.new)) }
    {
        let moved = match look_to_move(self.stored.tree(), credential, from, to) {
            Ok(moved) => moved,
            Err(refusal) => return Err(self.refused(refusal)),
        };
        let Some(place) = self.places.checked_add(1) else {
            return Err(NsRefusal::NoMemory);
        };
        if stands(self.stored.tree(), &moved.node) {
            self.places = place;
            return Ok(place);
        }
        match self.move_node(power, &moved) {
            Ok(()) => {}
            Err(refusal) => return Err(stored_told(refusal)),
        }
        self.places = place;
        Ok(place)
    }

    /// Takes the grant of a queue back, whose slots are all free.
    ///
    /// Without a number for its place it gives the queue back, and nothing is changed.
    pub fn close_grant(&mut self, queue: Queue<R>) -> Result<u64, Queue<R>>
        requires whole { out_slots queue ≡ [] }
        requires granted { is_some (grant_at (names_of self.old).grants queue.number) ≡ true }
        ensures spent { IsSpent (kernel_of self.old) → result ≡ Err queue }
        ensures same { OnErr result (kernel_of self.new ≡ kernel_of self.old) }
        ensures place { (kernel_of self.old).requests ≢ 2 ^ 64 - 1 →
            result ≡ Ok ((kernel_of self.old).requests + 1) }
        ensures closed { OnOk result
            (kernel_of self.new ≡ after_close queue (kernel_of self.old)) }
        ensures stored { stored_of self.new ≡ stored_of self.old }
        ensures step { (grant : _) →
            grant_at (names_of self.old).grants queue.number ≡ Some grant →
            OnOk result (stepped (names_of self.old) grant.caller (closes_queue queue.number) None
            ≡ Some (done, names_of self.new)) }
    {
        let Some(place) = self.places.checked_add(1) else {
            return Err(queue);
        };
        self.queues.close(queue);
        self.places = place;
        Ok(place)
    }
}

/// Whether a node stands in a tree as it is.
fn stands(tree: &Tree, node: &Node) -> bool
    ensures { IsTrue result ↔ (node_at tree.now.nodes node.now.rec ≡ Some node.now) }
{
    match tree.node(node.rec) {
        Some(there) => *there == *node,
        None => false,
    }
}

/// Why a change was not stored.
fn stored_told(refusal: StoreRefusal) -> NsRefusal
    ensures { result ≡ stored_told refusal }
{
    match refusal {
        StoreRefusal::NoMemory => NsRefusal::NoMemory,
        StoreRefusal::Failed => NsRefusal::Failed,
    }
}
