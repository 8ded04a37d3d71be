ghost use Rattle.std.specs.Prelude.{◌≡◌};

use cfs_grants::{FreeRecords, Grant, Grants, MOST_QUEUES, RECORDS, Removed, RemovedFiles};
use std::test::Fail;

fn grant(number: u64, queue: u32) -> Grant
    ensures { result.queue ≡ queue }
{
    Grant {
        number,
        ino: number.saturating_add(100),
        queue,
        caller: 1,
        reads: true,
        writes: false,
    }
}

#[test]
fn grants_come_and_go(rt: HostRuntime) {
    let mut grants = Grants::new(3);
    assert_eq!(rt; MOST_QUEUES, 64);
    assert_eq!(rt; grants.queues(), 3);
    assert_eq!(rt; grants.free_queue(), Some(0));
    grants.give(grant(1, 0));
    grants.give(grant(2, 1));
    assert_eq!(rt; grants.free_queue(), Some(2));
    grants.give(grant(3, 2));
    assert_eq!(rt; grants.free_queue(), None);
    assert_eq!(rt; grants.get(1), Some(grant(2, 1)));
    assert!(rt; grants.has_file(102) && !grants.has_file(104));
    grants.close(1);
    grants.close(7);
    assert_eq!(rt; grants.free_queue(), Some(1));
    assert_eq!(rt; grants.get(1), None);
    assert_eq!(rt; grants.get(3), None);
    assert!(rt; !grants.has_file(102));
    assert_eq!(rt;
        grants.rows(),
        [Some(grant(1, 0)), None, Some(grant(3, 2))].as_slice()
    );
}

#[test]
fn the_lowest_record_is_found(rt: HostRuntime) {
    let mut free = FreeRecords::none();
    assert_eq!(rt; free.lowest(), None);
    free.give(255);
    assert_eq!(rt; free.lowest(), Some(255));
    free.give(64);
    free.give(63);
    assert_eq!(rt; free.lowest(), Some(63));
    free.take(63);
    free.take(7);
    assert_eq!(rt; free.lowest(), Some(64));
    free.take(64);
    free.take(255);
    assert_eq!(rt; free.lowest(), None);
}

#[test]
fn removed_files_wait_for_their_grants(rt: HostRuntime) -> Result<(), Fail> {
    let mut grants = Grants::new(64);
    let mut files = RemovedFiles::new(rt.alloc())?;
    assert_eq!(rt; RECORDS, 256);
    assert_eq!(rt; files.dying(1, &grants), None);
    files.add(9, 109);
    files.add(4, 101);
    files.add(7, 107);
    grants.give(grant(1, 5));
    assert_eq!(rt; files.dying(1, &grants), Some((7, 107)));
    grants.close(5);
    assert_eq!(rt; files.dying(2, &grants), Some((4, 101)));
    files.freed(7);
    files.kept(4);
    assert!(rt; files.get(7).is_none());
    assert_eq!(rt; files.get(4), Some(Removed { ino: 101, by: None }));
    assert_eq!(rt; files.dying(3, &grants), Some((4, 101)));
    assert_eq!(rt; files.dying(3, &grants), Some((9, 109)));
    assert_eq!(rt; files.dying(3, &grants), None);
    assert!(rt; files.get(256).is_none());
    Ok(())
}
