use crate::tests::store::{answer, blank_store, change};
use std::alloc::Global;
use std::process::Abort;
use std::test::Fail;

/// Words that are changed in the store, whose files have the inode numbers 3 and 4 and the records
/// 2 and 4, and the plan of a mount then. Slots: a no-op of a file; one of no file; one of a
/// directory; a closed one with words of a file; a head of two slots, whose tail is closed; and a
/// slot, a block and a size of a file that the journal removes.
const SLOTS: &str = "\
selector:0=125 -> dead entries untagged emptied
slot:6=1 slot:7=1 slot:8=3 -> dead 1 entries untagged emptied
slot:12=7 slot:14=8 -> dead 2 entries untagged emptied
slot:6=1 slot:8=8 slot:12=2 slot:14=7 slot:186=5 slot:188=2 -> dead 1 2 31 entries untagged emptied
slot:13=9 slot:14=3 -> dead entries untagged emptied
tag:0=196609 tag:1=196610 slot:0=1 slot:2=3 slot:4=8590135296 slot:7=9 -> \
dead entries 2:3@0 untagged emptied
journal:992=63 journal:993=2 journal:994=2 journal:995=3 size:2=7 tag:3=196609 slot:0=1 slot:2=3 \
-> dead 0 entries untagged 3 emptied 2
";

/// Live entries: a write of file 4 with the gate 9 in slot 3, one with the gate 2 in slot 20, and a
/// truncate of file 3 with the gate 4 in slot 5, or with the gate 11 in slot 0.
const ENTRIES: &str = "\
tag:11=262145 slot:18=9 slot:20=4 slot:22=65537 -> dead entries 4:4@3 untagged emptied
tag:11=262145 slot:18=9 slot:20=4 slot:22=65537 slot:120=2 slot:122=4 slot:124=65537 -> \
dead entries 4:4@20 4:4@3 untagged emptied
tag:11=262145 slot:18=9 slot:20=4 slot:22=65537 slot:30=4 slot:32=3 slot:34=131072 -> \
dead entries 2:3@5 4:4@3 untagged emptied
slot:30=4 slot:32=3 slot:34=131072 slot:0=11 slot:2=3 slot:4=131072 -> \
dead entries 2:3@5 2:3@0 untagged emptied
";

/// Blocks and size words: tags of the root, of no inode, of the inode 0 and of file 3; sizes of the
/// root, of a free record, of a directory and of file 3.
const BLOCKS: &str = "\
tag:6=196609 size:2=8192 -> dead entries untagged emptied
tag:2=65537 tag:5=524289 tag:6=196609 tag:9=7 -> dead entries untagged 2 5 9 emptied
size:0=5 size:2=8192 size:3=1 size:255=9 -> dead entries untagged emptied 0 3 255
tag:15=589825 size:4=1048576 size:5=1048577 -> dead entries untagged 15 emptied 5
";

/// Changes words as a case says, and compares the plan.
fn run_case(rt: &impl Abort, alloc: Global, case: &str) -> Result<(), Fail> {
    let (changes, want) = case.split_once(" -> ").ok_or("answer")?;
    let mut store = blank_store(alloc)?;
    change(&mut store, changes)?;
    let given = answer(alloc, &store)?;
    assert_eq!(rt; given.as_str(), want, "{case}");
    Ok(())
}

#[test]
fn slots_of_no_file_are_dead(rt: HostRuntime) -> Result<(), Fail> {
    for case in SLOTS.lines() {
        run_case(&rt, rt.alloc(), case)?;
    }
    Ok(())
}

#[test]
fn entries_go_by_file_and_gate(rt: HostRuntime) -> Result<(), Fail> {
    for case in ENTRIES.lines() {
        run_case(&rt, rt.alloc(), case)?;
    }
    Ok(())
}

#[test]
fn blocks_and_sizes_of_no_file_are_told(rt: HostRuntime) -> Result<(), Fail> {
    for case in BLOCKS.lines() {
        run_case(&rt, rt.alloc(), case)?;
    }
    Ok(())
}
