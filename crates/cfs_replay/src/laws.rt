//! What stands of any list of live entries.
ghost use Rattle.cfs_replay.specs.Listed.{ListedEntriesAreInOrder};

/// A list of all live entries of the files, those of one file by ascending gate, is in the order in
/// which `replay_entries` takes them: each is the lowest of its file once those before it are
/// closed, and behind the last none is live.
pub fn listed_entries_are_in_order()
    ensures { ListedEntriesAreInOrder }
{}
