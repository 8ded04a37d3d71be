use crate::tests::store::{answer, blank_store, change, set_part};
use cfs_survey::StoreWords;
use std::alloc::Global;
use std::process::Abort;
use std::test::Fail;

/// The blocks that the files 3 and 4 have: of the first one the first ten and the last, of the
/// second the first.
const TAGS: &str = "\
tag:0=196609 tag:1=196610 tag:2=196611 tag:3=196612 tag:4=196613 tag:5=196614 tag:6=196615 \
tag:7=196616 tag:8=196617 tag:9=196618 tag:10=196864 tag:11=262145";

/// What a survey answers of a store without live entries.
const NONE: &str = "5 nodes 12 blocks 62";

/// Slots, each by its number and its gate, mark, inode number, offset, kind, length word and tails,
/// and the first check that fails, or the live entries.
const CASES: &str = "\
0 1 0 3 0 0 10 0 -> 59480 10 3
0 1 0 3 0 4 10 0 -> 59480 262154 3
0 1 0 3 0 1 10 2 -> 59480 2 0
0 1 0 3 0 2 0 2 -> 59480 2 0
0 1 0 3 0 1 0 0 -> 59480 0 1
0 1 0 3 0 1 4097 0 -> 59480 4097 4096
0 1 0 3 1048576 1 1 0 -> 59472 1048577 1048576
0 1 0 3 18446744073709551615 1 1 0 -> 59472 18446744073709551615 1048576
0 1 0 3 0 2 5 0 -> 59480 5 0
0 1 0 3 1048577 2 0 0 -> 59472 1048577 1048576
0 1 0 3 0 3 4095 2 -> 59480 4096 4097
0 1 0 3 0 3 4096 0 -> 59480 0 1
0 1 0 3 0 3 4096 1 -> 59480 1 1
0 1 0 3 0 3 4096 6 -> 59480 6 1
0 1 0 3 0 3 4096 65538 -> 59480 65538 1
0 1 0 3 0 3 8192 2 -> 59480 2 2
2 1 0 3 0 3 4096 4 -> 67768 4 1
0 1 0 3 0 3 4096 2;1 7 0 0 0 0 0 0 -> 59480 7 0
0 1 0 3 0 3 4096 4;1 2 0 3 0 3 4096 4 -> 63624 4 323
17 1 0 3 0 3 4096 32;18 2 0 3 0 3 8192 48 -> 134072 48 340
0 1 0 3 1048576 3 4096 2 -> 59472 1052673 1048576
3 9 0 3 0 1 1 0;5 9 0 3 0 1 1 0 -> 80168 9 326
2 9 0 3 0 1 1 0;20 9 0 3 0 1 1 0 -> 142328 9 325
0 1 0 3 40960 1 1 0 -> 59472 10 0
0 1 0 3 40959 1 2 0 -> 59472 10 0
0 1 0 4 4096 1 1 0 -> 59472 1 0
0 1 0 3 8193 3 32767 254 -> 59472 10 0
0 1 2 3 0 1 10 0 -> 59456 2 1
0 1 2 3 0 0 0 0 -> 59456 2 1
0 1 0 3 40960 9 0 9 -> 59480 38655295488 3
0 1 0 3 1048576 1 0 0 -> 59480 0 1
0 1 0 3 0 3 4096 4;1 1 0 3 40960 3 4096 4 -> 63624 4 323
3 9 0 3 0 1 1 0;5 9 0 3 40960 1 1 0 -> 80168 9 326
0 1 0 3 0 1 4096 0 -> ok 3:1@0
0 1 0 3 1048575 1 1 0 -> ok 3:1@0
0 1 0 3 40959 1 1 0 -> ok 3:1@0
0 1 0 3 1048576 2 0 0 -> ok 3:1@0
0 1 0 3 8192 3 32767 254 -> ok 3:1@0
0 0 7 3 9999999 9 1 77 -> ok
0 1 1 3 9999999 9 1 77 -> ok
0 1 7 2 9999999 9 1 77 -> ok
0 1 7 8 9999999 9 1 77 -> ok
0 1 0 3 0 3 4096 2;1 0 7 3 9999999 9 1 77 -> ok 3:1@0
0 1 1 3 0 3 4096 4;1 2 0 3 0 3 4096 4 -> ok 3:2@1
0 1 0 9 0 3 4096 4;1 2 0 3 0 3 4096 4 -> ok 3:2@1
0 1 0 3 0 3 4096 4;17 2 0 3 0 3 4096 4 -> ok 3:1@0 3:2@17
3 9 0 3 0 1 1 0;5 9 0 4 0 1 1 0 -> ok 3:9@3 4:9@5
3 9 1 3 0 1 1 0;5 9 0 3 0 1 1 0 -> ok 3:9@5
0 2 0 4 0 1 1 0;1 9 0 3 0 1 1 0;18 4 0 3 0 1 1 0 -> ok 3:4@18 3:9@1 4:2@0
";

/// Sets the words of a slot.
fn set_slot(store: &mut StoreWords, line: &str) -> Result<(), Fail> {
    let mut numbers = line.split(' ');
    let slot = numbers.next().ok_or("slot")?.parse::<usize>()?;
    let mut words = [0; 7];
    for (k, word) in numbers.enumerate() {
        if k < 7 {
            words[k] = word.parse::<u64>()?;
        }
    }
    let [gate, mark, ino, offset, kind, len, tails] = words;
    let fourth = (tails << 32) | (kind << 16) | len;
    for (k, word) in [gate, mark, ino, offset, fourth].into_iter().enumerate() {
        set_part(
            store,
            "slot",
            slot.saturating_mul(6).saturating_add(k),
            word,
        );
    }
    Ok(())
}

/// Sets slots as a case says, and compares the answer.
fn run_case(rt: &impl Abort, alloc: Global, case: &str) -> Result<(), Fail> {
    let (slots, want) = case.split_once(" -> ").ok_or("answer")?;
    let mut store = blank_store(alloc)?;
    change(&mut store, TAGS)?;
    for line in slots.split(';') {
        set_slot(&mut store, line)?;
    }
    let given = answer(alloc, &store)?;
    match want.strip_prefix("ok") {
        Some(entries) => {
            let whole = format!(in alloc; "{NONE}{entries}")?;
            assert_eq!(rt; given.as_str(), whole.as_str(), "{case}");
        }
        None => assert_eq!(rt; given.as_str(), want, "{case}"),
    }
    Ok(())
}

#[test]
fn the_first_fault_of_the_slots_is_named(rt: HostRuntime) -> Result<(), Fail> {
    for case in CASES.lines() {
        run_case(&rt, rt.alloc(), case)?;
    }
    Ok(())
}
