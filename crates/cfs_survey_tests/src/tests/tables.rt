use cfs_survey::{Fault, SurveyRefusal, check_sizes, read_table};
use std::alloc::Global;
use std::process::Abort;
use std::test::Fail;

/// Where the table begins: the second copy.
pub(crate) const AT: u64 = 24_624;

/// The words of a table that are not zero, in lines of an index and the words from there on: the
/// next inode number, the root, the directory `/d`, the file `/d/fg`, a file `/aa..a` of forty
/// letters in record 4, and the directory `/d/h` in record 255.
const TABLE: &str = "\
0 10
1 1 1 2 511 0 0 0
13 2 1 2 493 10 10 1 100
25 3 2 1 420 10 10 2 26470
49 4 1 1 0 4294967295 4294967295 40 7016996765293437281 7016996765293437281
58 7016996765293437281 7016996765293437281 7016996765293437281
3061 9 2 2 511 0 0 1 104
";

/// Words that are changed in that table, and the offset, the number found and the number that it
/// is against of the first check that fails then.
const CASES: &str = "\
0=10 -> ok
0=1 -> 24624 1 2
0=4294967297 -> 24624 4294967297 4294967296
0=4294967296 -> ok
1=0 -> 24632 0 1
1=2 -> 24632 2 1
2=0 -> 24640 0 1
3=1 -> 24648 1 2
7=1 -> 24680 1 0
4=512 -> 24656 512 511
5=4294967296 -> 24664 4294967296 4294967295
6=4294967296 -> 24672 4294967296 4294967295
7=1 4=512 -> 24680 1 0
8=77 12=77 -> ok
13=10 -> 24728 10 10
13=18446744073709551615 -> 24728 18446744073709551615 10
25=2 -> 24824 2 1
25=1 -> 24824 1 0
3061=4 -> 49112 4 4
15=0 -> 24744 0 2
15=3 -> 24744 3 2
16=512 -> 24752 512 511
17=4294967296 -> 24760 4294967296 4294967295
18=18446744073709551615 -> 24768 18446744073709551615 4294967295
19=0 -> 24776 0 1
19=41 -> 24776 41 40
19=18446744073709551615 -> 24776 18446744073709551615 40
20=47 -> 24784 47 0
20=0 -> 24784 0 0
20=25700 -> 24785 100 0
24=1 -> 24816 1 0
24=72057594037927936 -> 24823 1 0
20=46 -> 24776 1 0
19=2 20=11822 -> 24776 2 0
19=3 20=3026478 -> ok
60=0 -> 25104 0 0
15=3 20=47 -> 24744 3 2
20=47 25=2 -> 24784 47 0
26=7 -> 24832 7 0
26=4 -> 24832 4 0
26=1 -> ok
14=2 -> 24728 2 16
14=9 -> 24728 2 16
3062=1 3068=100 -> 49112 255 1
3062=1 -> ok
26=7 3064=512 -> 49136 512 511
26=7 3062=1 3068=100 -> 24832 7 0
38=5 48=5 -> ok
13=0 -> 24832 2 0
13=0 25=0 3061=0 -> ok
";

/// Sets a word of a list.
fn set_word(words: &mut Vec<u64>, index: usize, word: u64) {
    if index < words.len() {
        words[index] = word;
    }
}

/// The words of that table.
pub(crate) fn table(alloc: Global) -> Result<Vec<u64>, Fail> {
    let mut words = vec![in alloc; 0; 3073]?;
    for line in TABLE.lines() {
        let mut numbers = line.split(' ');
        let from = numbers.next().ok_or("index")?.parse::<usize>()?;
        for (k, word) in numbers.enumerate() {
            set_word(&mut words, from.saturating_add(k), word.parse::<u64>()?);
        }
    }
    Ok(words)
}

/// A refusal as text.
pub(crate) fn refusal_text(alloc: Global, refusal: SurveyRefusal) -> Result<String, Fail> {
    Ok(match refusal {
        SurveyRefusal::Damaged(
            Fault {
                offset,
                found,
                against,
            },
        ) => format!(in alloc; "{offset} {found} {against}")?,
        SurveyRefusal::NoMemory => format!(in alloc; "no memory")?,
    })
}

/// What a reading of these words answers, as text.
fn answer(alloc: Global, words: &[u64]) -> Result<String, Fail> {
    if words.len() != 3073 {
        return Ok(format!(in alloc; "no table")?);
    }
    match read_table(alloc, AT, words) {
        Ok(_) => Ok(format!(in alloc; "ok")?),
        Err(refusal) => refusal_text(alloc, refusal),
    }
}

/// Changes words as a case says, and compares the answer.
fn run_case(rt: &impl Abort, alloc: Global, case: &str) -> Result<(), Fail> {
    let (changes, want) = case.split_once(" -> ").ok_or("answer")?;
    let mut words = table(alloc)?;
    for change in changes.split(' ') {
        let (index, word) = change.split_once('=').ok_or("change")?;
        set_word(&mut words, index.parse::<usize>()?, word.parse::<u64>()?);
    }
    let given = answer(alloc, &words)?;
    assert_eq!(rt; given.as_str(), want, "{case}");
    Ok(())
}

#[test]
fn the_first_fault_is_named(rt: HostRuntime) -> Result<(), Fail> {
    for case in CASES.lines() {
        run_case(&rt, rt.alloc(), case)?;
    }
    Ok(())
}

/// A table of so many directories, each in the one before.
pub(crate) fn nested(alloc: Global, count: usize) -> Result<Vec<u64>, Fail> {
    let mut words = vec![in alloc; 0; 3073]?;
    set_word(&mut words, 0, 300);
    for rec in 0..count.min(255) {
        let ino = rec as u64 + 1;
        let parent = if rec == 0 { 1 } else { ino - 1 };
        let len = if rec == 0 { 0 } else { 1 };
        let row = [ino, parent, 2, 0o755, 0, 0, len, 100 * len];
        for (k, word) in row.into_iter().enumerate() {
            set_word(&mut words, (1 + 12 * rec).saturating_add(k), word);
        }
    }
    Ok(words)
}

#[test]
fn at_most_sixteen_parents(rt: HostRuntime) -> Result<(), Fail> {
    for (count, want) in [(17, "ok"), (18, "26264 18 16"), (255, "26264 18 16")] {
        let given = answer(rt.alloc(), &nested(rt.alloc(), count)?)?;
        assert_eq!(rt; given.as_str(), want, "{count} directories");
    }
    Ok(())
}

#[test]
fn nodes_are_read(rt: HostRuntime) -> Result<(), Fail> {
    let words = table(rt.alloc())?;
    if words.len() == 3073 {
        let nodes = read_table(rt.alloc(), AT, &words)?;
        let places = [(0, 1), (1, 2), (2, 3), (4, 4), (255, 9)];
        assert!(rt;
            nodes
                .iter()
                .map(|node| (node.rec, node.ino))
                .eq(places.iter().copied())
        );
        assert!(rt;
            nodes
                .get(2)
                .is_some_and(|node| node.name.as_bytes() == b"fg".as_slice())
        );
    }
    Ok(())
}

/// Where the size words begin.
const SIZES_AT: u64 = 57_400;

#[test]
fn sizes_of_files(rt: HostRuntime) -> Result<(), Fail> {
    let words = table(rt.alloc())?;
    if words.len() == 3073 {
        let nodes = read_table(rt.alloc(), AT, &words)?;
        let mut sizes = [0; 256];
        // Directories and free records.
        for rec in [0, 1, 3, 255] {
            sizes[rec] = u64::MAX;
        }
        sizes[4] = 1_048_576;
        assert!(rt; check_sizes(SIZES_AT, &sizes, &nodes).is_ok());
        for (rec, size, offset) in [(4, u64::MAX, 57_432), (2, 1_048_577, 57_416)] {
            sizes[rec] = size;
            let fault = Fault {
                offset,
                found: size,
                against: 1_048_576,
            };
            assert!(rt; check_sizes(SIZES_AT, &sizes, &nodes) == Err(fault));
        }
    }
    Ok(())
}
