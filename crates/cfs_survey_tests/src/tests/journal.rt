use crate::tests::tables::{AT, nested, refusal_text, table};
use cfs_survey::{RECORD_WORDS, Recovered, read_journal, read_table};
use std::alloc::Global;
use std::process::Abort;
use std::test::Fail;

/// Where the journal begins.
const JOURNAL_AT: u32 = 49_208;

/// The number that the table holds through.
const THROUGH: u64 = 62;

/// The words of a journal that are not zero, in lines of an index and the words from there on: in
/// the last two positions the file `/d/h/x`, in record 3, and `/d/h`, which moves to `/k`; in the
/// first two the removal of `/d/fg`, and `/k/x`, which moves to `/aa..a`.
const JOURNAL: &str = "\
992 63 1 3 10 9 1 420 10 10 1 120
1008 64 3 255 9 1 2 511 0 0 1 107
0 65 2 2 3
16 66 3 3 10 1 1 420 10 10 40 7016996765293437281 7016996765293437281 7016996765293437281
29 7016996765293437281 7016996765293437281 5
80 6
";

/// Words that are changed in that journal, and the first check that fails then, or the records and
/// the inode numbers of the nodes, the next number and the last record.
const CASES: &str = "\
0=65 -> 0:1 1:2 3:10 255:9 next=11 last=66
992=0 -> 49208 65 62
992=0 1008=0 0=0 16=0 -> 0:1 1:2 2:3 4:4 255:9 next=10 last=62
993=0 -> 57152 0 3
993=4 -> 57152 4 3
993=3 -> 57168 10 0
994=256 -> 57160 256 255
994=4 -> 57160 4 4
994=255 -> 57160 255 9
995=9 -> 57168 9 10
995=4294967296 -> 57168 4294967296 4294967296
995=11 -> 49360 10 11
997=3 -> 57184 3 2
998=512 -> 57192 512 511
1001=41 -> 57216 41 40
1002=47 -> 57224 47 0
996=3 -> 57176 3 0
996=10 -> 57176 10 0
996=2 1002=104 -> 57168 3 255
996=2 1001=2 1002=26470 -> 57168 3 2
1010=256 -> 57288 256 255
1010=3 -> 57296 9 10
1010=5 -> 57296 9 0
1010=0 1011=1 -> 57288 0 0
1013=1 -> 57312 1 2
1014=510 -> 57320 510 511
1015=1 -> 57328 1 0
1016=1 -> 57336 1 0
1023=257 -> 57392 257 256
1023=256 -> 57392 256 0
1023=3 -> 57392 3 0
1023=6 -> 57392 6 0
1017=40 1018=7016996765293437281 1019=7016996765293437281 -> 57368 0 0
1018=100 1023=2 -> 57392 2 3
1018=47 -> 57352 47 0
1012=10 -> 57168 10 16
1012=3 -> 57304 3 0
1018=100 -> 57296 255 1
25=1 26=107 27=0 28=0 29=0 30=0 31=0 -> 57296 255 3
31=0 -> 25016 4 3
2=3 -> 49232 3 10
2=5 -> 49232 3 0
2=18446744073709551615 -> 49232 3 0
2=0 3=1 -> 49224 0 0
2=1 3=2 -> 49232 2 3
80=200 -> 49848 200 66
80=66 -> 49848 66 1
80=7 -> 49848 7 6
80=7 96=300 -> 49976 300 66
0=0 -> 49336 66 64
1018=47 0=0 -> 57352 47 0
";

/// The words of that journal.
fn journal() -> Result<[[u64; RECORD_WORDS]; 64], Fail> {
    let mut records = [[0; RECORD_WORDS]; 64];
    for line in JOURNAL.lines() {
        let mut numbers = line.split(' ');
        let from = numbers.next().ok_or("index")?.parse::<usize>()?;
        for (k, word) in numbers.enumerate() {
            set(&mut records, from.saturating_add(k), word.parse::<u64>()?);
        }
    }
    Ok(records)
}

/// Sets a word of a journal.
fn set(records: &mut [[u64; RECORD_WORDS]; 64], index: usize, word: u64) {
    if index < 64 * RECORD_WORDS {
        records[index / RECORD_WORDS][index % RECORD_WORDS] = word;
    }
}

/// A tree as text.
fn tree_text(alloc: Global, tree: &Recovered) -> Result<String, Fail> {
    let mut text = String::new(alloc);
    for node in &tree.nodes {
        let place = format!(in alloc; "{}:{} ", node.rec, node.ino)?;
        text.push_str(place.as_str())?;
    }
    let end = format!(in alloc; "next={} last={}", tree.next, tree.last)?;
    text.push_str(end.as_str())?;
    Ok(text)
}

/// What a reading of this journal behind a table answers, as text.
fn answer(
    alloc: Global,
    words: &[u64],
    through: u64,
    records: &[[u64; RECORD_WORDS]; 64],
) -> Result<String, Fail> {
    if words.len() != 3073 || through >= 1 << 62 {
        return Ok(format!(in alloc; "no table")?);
    }
    let nodes = read_table(alloc, AT, words)?;
    let read = read_journal(
        alloc, AT as u32, JOURNAL_AT, nodes, words[0], through, records,
    );
    match read {
        Ok(tree) => tree_text(alloc, &tree),
        Err(refusal) => refusal_text(alloc, refusal),
    }
}

/// Changes words as a case says, and compares the answer.
fn run_case(rt: &impl Abort, alloc: Global, case: &str) -> Result<(), Fail> {
    let (changes, want) = case.split_once(" -> ").ok_or("answer")?;
    let mut records = journal()?;
    for change in changes.split(' ') {
        let (index, word) = change.split_once('=').ok_or("change")?;
        set(&mut records, index.parse::<usize>()?, word.parse::<u64>()?);
    }
    let given = answer(alloc, &table(alloc)?, THROUGH, &records)?;
    assert_eq!(rt; given.as_str(), want, "{case}");
    Ok(())
}

#[test]
fn the_first_fault_of_a_journal_is_named(rt: HostRuntime) -> Result<(), Fail> {
    for case in CASES.lines() {
        run_case(&rt, rt.alloc(), case)?;
    }
    Ok(())
}

#[test]
fn a_new_node_has_at_most_sixteen_parents(rt: HostRuntime) -> Result<(), Fail> {
    for (parent, want) in [(16, "next=301 last=1"), (17, "49232 300 16")] {
        let mut records = [[0; RECORD_WORDS]; 64];
        records[0] = [1, 1, 20, 300, parent, 1, 0, 0, 0, 1, 101, 0, 0, 0, 0, 0];
        let given = answer(rt.alloc(), &nested(rt.alloc(), 17)?, 0, &records)?;
        assert!(rt; given.as_str().ends_with(want), "parent {parent}");
    }
    Ok(())
}
