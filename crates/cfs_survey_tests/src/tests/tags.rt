use crate::tests::tables::{AT, refusal_text, table};
use cfs_survey::{read_table, read_tags};
use std::alloc::Global;
use std::process::Abort;
use std::test::Fail;

/// Where the first tag stands, in a store of one queue.
const TAGS_AT: u64 = 125_752;

/// Tags of the blocks of a store whose files have the inode numbers 3 and 4, and how many blocks
/// are found or the first check that fails.
const CASES: &str = "\
0=0 -> 0
0=196609 1=196610 2=262145 -> 3
15=196864 -> 1
15=196865 -> 187312 196865 256
3=196608 -> 138064 196608 256
0=196609 15=196609 -> 187312 196609 0
2=262145 5=262145 7=196608 -> 146272 262145 2
0=65537 1=131073 2=65537 -> 0
0=327681 1=327681 2=18446744073709551615 -> 0
4=262656 2=196609 9=196609 -> 142168 262656 256
";

/// What a reading of these tags answers, as text.
fn answer(alloc: Global, words: &[u64], tags: &[u64; 16]) -> Result<String, Fail> {
    if words.len() != 3073 {
        return Ok(format!(in alloc; "no table")?);
    }
    let nodes = read_table(alloc, AT, words)?;
    match read_tags(alloc, TAGS_AT, &nodes, tags) {
        Ok(blocks) => Ok(format!(in alloc; "{}", blocks.len())?),
        Err(refusal) => refusal_text(alloc, refusal),
    }
}

/// Sets tags as a case says, and compares the answer.
fn run_case(rt: &impl Abort, alloc: Global, case: &str) -> Result<(), Fail> {
    let (changes, want) = case.split_once(" -> ").ok_or("answer")?;
    let mut tags = [0; 16];
    for change in changes.split(' ') {
        let (block, tag) = change.split_once('=').ok_or("change")?;
        let block = block.parse::<usize>()?;
        if block < 16 {
            tags[block] = tag.parse::<u64>()?;
        }
    }
    let given = answer(alloc, &table(alloc)?, &tags)?;
    assert_eq!(rt; given.as_str(), want, "{case}");
    Ok(())
}

#[test]
fn the_first_fault_of_the_tags_is_named(rt: HostRuntime) -> Result<(), Fail> {
    for case in CASES.lines() {
        run_case(&rt, rt.alloc(), case)?;
    }
    Ok(())
}
