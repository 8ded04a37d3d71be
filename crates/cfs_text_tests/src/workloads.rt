use cfs_gen::{MOST_REQUESTS, Summary, gen_script, print_summary};
use cfs_script::{Form, Script, read_play};
use std::test::Fail;

/// The workload of number 7 up to its request of number 40, worked by hand.
const BEGIN: &str = "\
    caller 1 0 0\ncaller 2 0 0\ncaller 3 0 0\ncaller 4 0 0\ncaller 5 0 0\ncaller 6 0 0\n\
    caller 7 0 0\ncaller 8 0 0\n1 open /g1 rwc 0644\n1 open /g0 rwc 0644\n\
    2 open /g2 rwc 0644\n2 open /g0 rwc 0644\n3 open /g3 rwc 0644\n3 open /g0 rwc 0644\n\
    4 open /g4 rwc 0644\n4 open /g0 rwc 0644\n5 open /g5 rwc 0644\n5 open /g0 rwc 0644\n\
    6 open /g6 rwc 0644\n6 open /g0 rwc 0644\n7 open /g7 rwc 0644\n7 open /g0 rwc 0644\n\
    8 open /g8 rwc 0644\n8 open /g0 rwc 0644\n1 pwrite 0 44351 r:3378:41\n\
    2 pwrite 1 10499 r:4073:42\nturn\n3 pwrite 1 50806 r:1540:43\nturn\n\
    4 pwrite 0 38000 r:478:44\n5 pwrite 1 3699 r:45:45\n6 pwrite 0 27553 r:1591:46\nturn\n\
    7 pwrite 1 8304 r:857:47\n8 pwrite 1 19312 r:2025:48\n1 pwrite 0 18955 r:2846:41\n\
    2 pwrite 1 5467 r:1765:42\nturn\n3 pwrite 1 39575 r:545:43\n4 pwrite 0 51944 r:609:44\n\
    5 pwrite 0 330 r:117:45\nturn\n6 pwrite 1 29468 r:3419:46\n7 pwrite 0 37536 r:3763:47\n\
    8 pwrite 1 14053 r:3124:48\nturn\n1 pwrite 1 16265 r:3797:41\n2 pwrite 0 5538 r:938:42\n\
    3 pwrite 0 44803 r:3977:43\nturn\n4 pwrite 0 6901 r:3923:44\nturn\n\
    5 pwrite 0 9455 r:1633:45\nturn\n6 pwrite 1 2879 r:1827:46\n7 pwrite 1 7939 r:2238:47\n\
    turn\n8 pwrite 1 7234 r:345:48\n1 pread 1 33516 2846\n2 pread 0 41846 1958\n\
    3 pread 1 44731 500\nturn\n4 pread 0 43991 1058\n5 pread 0 26360 1774\nturn\n\
    6 pread 0 53501 3111\n7 pread 1 27566 267\nturn\n8 pread 0 7548 1249\n1 fsync 1\n\
    2 fsync 1\nturn\n3 fsync 1\n4 fsync 0\nturn\n5 fsync 0\nturn\n6 fsync 1\n7 fsync 1\n\
    8 fsync 1\n1 pwrite 1 58700 r:2161:41\nturn\n";

/// What every workload ends with.
const END: &str = "\
    drain\n1 close 0\n1 close 1\n2 close 0\n2 close 1\n3 close 0\n3 close 1\n4 close 0\n\
    4 close 1\n5 close 0\n5 close 1\n6 close 0\n6 close 1\n7 close 0\n7 close 1\n8 close 0\n\
    8 close 1\n";

#[test]
fn a_short_workload_is_worked_by_hand(rt: HostRuntime) -> Result<(), Fail> {
    let alloc = rt.alloc();
    let text = format!(in alloc; "{BEGIN}{END}")?;
    let wanted = read_play(alloc, text.as_bytes())?;
    let script = gen_script(alloc, 7, 41)?;
    assert!(rt; script.lines() == wanted.lines());
    Ok(())
}

#[test]
fn a_long_workload_begins_the_same_way(rt: HostRuntime) -> Result<(), Fail> {
    let alloc = rt.alloc();
    let wanted = read_play(alloc, BEGIN.as_bytes())?;
    let script = gen_script(alloc, 7, 20_000)?;
    assert_eq!(rt; wanted.lines().len(), 82);
    assert_eq!(rt; script.lines().len(), 26_783);
    assert!(rt;
        script
            .lines()
            .iter()
            .zip(wanted.lines())
            .all(|(line, other)| line == other)
    );
    Ok(())
}

/// The summary of a workload whose requests are answered ok, but for the syncs of caller 1.
fn summary_of(number: u64, script: &Script) -> Summary {
    let mut summary = Summary::new(number);
    for line in script.lines() {
        let is_ok = !matches!(line.form, Form::Fsync { caller: 1, .. });
        if !summary.is_full() {
            summary.add(&line.form, is_ok);
        }
    }
    summary
}

#[test]
fn the_counts_of_a_workload_are_printed(rt: HostRuntime) -> Result<(), Fail> {
    let alloc = rt.alloc();
    assert_eq!(rt;
        print_summary(alloc, &Summary::new(7))?.as_slice(),
        b"gen number=7 requests=0 writes=0 reads=0 syncs=0 ok=0\n".as_slice()
    );
    let script = gen_script(alloc, 7, 20_000)?;
    assert_eq!(rt;
        print_summary(alloc, &summary_of(7, &script))?.as_slice(),
        b"gen number=7 requests=20000 writes=12000 reads=4000 syncs=4000 ok=19500\n".as_slice()
    );
    assert_eq!(rt; MOST_REQUESTS, 32_000);
    Ok(())
}
