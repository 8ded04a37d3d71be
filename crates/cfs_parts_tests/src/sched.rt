use cfs_sched::{Choice, Gate, OpenGate, Summary, choose, passed_over_often_comes_first};

fn item(rec: u32, place: u64, read_waits: bool, passed: u64) -> Summary {
    Summary {
        rec,
        ino: u64::from(rec) + 1,
        place,
        noop: false,
        read_waits,
        passed,
    }
}

/// Each row: items, and the index of the one that is chosen.
#[test]
fn choices(rt: HostRuntime) {
    let rows: [(&[Summary], Option<usize>); 8] = [
        (&[], None),
        (&[item(2, 1, false, 0)], Some(0)),
        (&[item(2, 1, false, 0), item(1, 9, false, 63)], Some(1)),
        (&[item(1, 4, false, 0), item(1, 3, false, 0)], Some(1)),
        (&[item(1, 1, false, 63), item(2, 2, true, 0)], Some(1)),
        (&[item(1, 1, true, 0), item(2, 2, false, 64)], Some(1)),
        (&[item(2, 2, false, 64), item(1, 1, true, 65)], Some(1)),
        (&[item(2, 2, true, 64), item(1, 1, false, 64)], Some(1)),
    ];
    for (work, index) in rows {
        let choice = index.map(|index| Choice { index });
        assert_eq!(rt; choose(work), choice, "{work:?}");
    }
    passed_over_often_comes_first();
}

#[test]
fn open_gate_holds_nobody() {
    OpenGate.pass(1);
}
