use crate::tests::store::{answer, blank_store, change};
use std::alloc::Global;
use std::process::Abort;
use std::test::Fail;

/// What the store holds beside its table: in the journal the removal of the file 3, whose size,
/// tags and slots may be anything from then on; of the file 4 its size, the tags of its first two
/// blocks, a write across them in slot 0 and a truncate in slot 17.
const STORE: &str = "\
journal:992=63 journal:993=2 journal:994=2 journal:995=3 \
size:2=1048577 size:4=8192 tag:0=262145 tag:5=262146 tag:7=196608 \
slot:0=7 slot:2=4 slot:3=4090 slot:4=65546 \
slot:6=1 slot:7=9 slot:8=3 \
slot:102=6 slot:104=4 slot:105=100 slot:106=131072";

/// Words that are changed in that store, and what a survey answers then. In each of the five parts
/// one is wrong, and is named although the later parts are wrong too.
const CASES: &str = "\
table:0=10 -> 4 nodes 2 blocks 63 4:6@17 4:7@0
table:0=1 journal:993=0 size:4=1048577 tag:5=262144 slot:4=10 -> 24624 1 2
journal:993=0 size:4=1048577 tag:5=262144 slot:4=10 -> 57152 0 3
size:4=1048577 tag:5=262144 slot:4=10 -> 57432 1048577 1048576
tag:5=262144 slot:4=10 -> 212576 262144 256
slot:4=10 -> 59480 10 3
tag:5=0 -> 59472 1 0
journal:992=0 -> 57416 1048577 1048576
journal:992=0 size:2=0 -> 220784 196608 256
journal:992=0 size:2=0 tag:7=0 -> 63600 9 1
journal:992=0 size:2=0 tag:7=0 slot:6=0 -> 5 nodes 2 blocks 62 4:6@17 4:7@0
selector:0=124 table:0=1 -> 40 1 2
selector:0=122 -> 57144 63 61
";

/// Changes words as a case says, and compares the answer.
fn run_case(rt: &impl Abort, alloc: Global, case: &str) -> Result<(), Fail> {
    let (changes, want) = case.split_once(" -> ").ok_or("answer")?;
    let mut store = blank_store(alloc)?;
    change(&mut store, STORE)?;
    change(&mut store, changes)?;
    let given = answer(alloc, &store)?;
    assert_eq!(rt; given.as_str(), want, "{case}");
    Ok(())
}

#[test]
fn the_first_fault_of_a_store_is_named(rt: HostRuntime) -> Result<(), Fail> {
    for case in CASES.lines() {
        run_case(&rt, rt.alloc(), case)?;
    }
    Ok(())
}
