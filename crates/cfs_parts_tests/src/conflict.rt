use cfs_conflict::Conflicts;
use cfs_file::{NoMemory, Span};
use std::alloc::Global;
use std::process::Abort;
use std::test::Fail;

/// Writes of places 1, 3 and 5, and a read of place 2 that needs the first: the write of place 5
/// covers both writes.
fn three_writes_and_a_read(alloc: Global, rt: &impl Abort) -> Result<(), NoMemory> {
    let mut conflicts = Conflicts::new(alloc);
    conflicts.reserve()?;
    conflicts.add_entry(1, Span::Range { from: 0, to: 10 });
    conflicts.reserve()?;
    conflicts.add_read(2, Span::Range { from: 9, to: 12 });
    conflicts.reserve()?;
    conflicts.add_entry(3, Span::Range { from: 10, to: 20 });
    conflicts.reserve()?;
    conflicts.add_entry(5, Span::From { from: 0 });
    assert_eq!(rt; conflicts.blocker(1), None);
    assert_eq!(rt; conflicts.blocker(2), Some(1));
    assert_eq!(rt; conflicts.blocker(3), Some(2));
    assert_eq!(rt; conflicts.blocker(5), Some(1));
    assert_eq!(rt; conflicts.next_to_mark(5, 0), Some(3));
    assert_eq!(rt; conflicts.next_to_mark(5, 3), None);
    assert_eq!(rt; conflicts.reader_after(1), Some(2));
    assert_eq!(rt; conflicts.reader_after(3), None);
    assert!(rt; conflicts.remove(2));
    assert!(rt; !conflicts.remove(2));
    assert_eq!(rt; conflicts.next_to_mark(5, 0), Some(1));
    Ok(())
}

#[test]
fn who_waits_for_whom(rt: HostRuntime) -> Result<(), Fail> {
    three_writes_and_a_read(rt.alloc(), &rt)?;
    Ok(())
}
