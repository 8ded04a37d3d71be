use cfs_file::{Bytes, NoMemory};
use cfs_script::{
    CALLERS, Command, Form, Line, MOST_LINES, Script, ScriptRefusal, print_and_read_play,
    print_and_read_run, print_script, read_play, read_run,
};
use std::alloc::Global;
use std::test::Fail;

/// How many lines are read, or which line is the first outside.
fn outcome(alloc: Global, command: Command, text: &str) -> Result<Result<usize, u64>, NoMemory> {
    let read = match command {
        Command::Play => read_play(alloc, text.as_bytes()),
        Command::Run => read_run(alloc, text.as_bytes()),
    };
    match read {
        Ok(script) => Ok(Ok(script.lines().len())),
        Err(ScriptRefusal::Line(number)) => Ok(Err(number)),
        Err(ScriptRefusal::NoMemory) => Err(NoMemory),
    }
}

/// The text, read, printed, read again and printed again.
fn reprinted(alloc: Global, command: Command, text: &str) -> Result<Bytes, ScriptRefusal> {
    let script = match command {
        Command::Play => print_and_read_play(alloc, &read_play(alloc, text.as_bytes())?)?,
        Command::Run => print_and_read_run(alloc, &read_run(alloc, text.as_bytes())?)?,
    };
    Ok(print_script(alloc, &script)?)
}

/// A line of each form that both commands have, and behind `|` its canonical line where that is
/// another.
const BOTH: &str = "\
caller 16 0 4294967295
1 open / r
1 open /a-._Z9/b rwcxa 0777
1 open /a wxa
1 close 0
1 fsync 4294967295
1 mkdir / 0007
1 unlink /.
1 rmdir /d/..
1 rename /a /b/c
1 read 0 65536
1 write 0 t:hi~!|1 write 0 h:68697e21
1 write 0 t:|1 write 0 h:
1 write 0 h:
1 write 0 r:0:ff|1 write 0 h:
1 write 0 r:3:0a|1 write 0 h:0a0a0a
1 pread 0 4294967295 0
1 pwrite 0 0 h:00ff
1 pwrite 0 7 t:t:|1 pwrite 0 7 h:743a
1 try_pwrite 2 1 r:2:5a|1 try_pwrite 2 1 h:5a5a
1 lseek 0 set 5
1 lseek 0 cur 5
1 lseek 0 cur -5
1 lseek 0 cur 0
1 lseek 0 cur -0|1 lseek 0 cur 0
1 ftruncate 0 7";

/// A line of each form that `play` alone has, all canonical.
const PLAYED: &str = "\
1 post 0 0 1
1 serve 0 3
dispatch 2 1
apply 2 1
finish 2 1
skip 2 1
trim 2
settle 2
turn
drain
queue 1 0
stop 1
crash 0
mount
fail selector 1
fail table 0 1
fail table 1 1
fail journal 63 2
fail size 255 3
fail slot 99 99 4
fail block 4294967295 5
failread selector 1
failread slot 0 0 4294967295
failread block 0 1";

/// Whether the line is outside with a word more, and with a word less where it has several.
fn has_its_words(alloc: Global, command: Command, line: &str) -> Result<bool, NoMemory> {
    let more = format!(in alloc; "caller 1 0 0\n{line} 0")?;
    if outcome(alloc, command, more.as_str())? != Err(2) {
        return Ok(false);
    }
    let Some((less, _)) = line.rsplit_once(' ') else {
        return Ok(true);
    };
    let less = format!(in alloc; "caller 1 0 0\n{less}")?;
    Ok(outcome(alloc, command, less.as_str())? == Err(2))
}

/// Whether the row's line is read and printed as its canonical line.
fn is_printed(alloc: Global, command: Command, row: &str) -> Result<bool, NoMemory> {
    let (line, canonical) = row.split_once('|').unwrap_or((row, row));
    let text = format!(in alloc; "# x\n\ncaller 1 0 0\n{line}")?;
    let wanted = format!(in alloc; "caller 1 0 0\n{canonical}\n")?;
    match reprinted(alloc, command, text.as_str()) {
        Ok(printed) => Ok(
            printed.as_slice() == wanted.as_bytes() && has_its_words(alloc, command, line)?,
        ),
        Err(_) => Ok(false),
    }
}

/// Fails at the first row of the table that is not read and printed so.
fn print_all(alloc: Global, command: Command, table: &str) -> Result<(), Fail> {
    for row in table.split('\n') {
        if !is_printed(alloc, command, row)? {
            return Err(Fail::new(row));
        }
    }
    Ok(())
}

#[test]
fn each_form_is_read_and_printed(rt: HostRuntime) -> Result<(), Fail> {
    let alloc = rt.alloc();
    print_all(alloc, Command::Play, BOTH)?;
    print_all(alloc, Command::Run, BOTH)?;
    print_all(alloc, Command::Play, PLAYED)?;
    print_all(alloc, Command::Run, "cut 1 4294967295")
}

/// Lines that no script has: bytes, spaces, the words that begin a line, numbers.
const BAD_FRONTS: &str = "\
#\x7f
# \u{e9}
#\t
turn\r
\x20
\x20# x
\x20turn
turn\x20
stop  1
bad
Turn
close 0
1
1 turn
1 stat 0
caller
stop 01
crash 00
crash +1
crash -1
crash 1x
crash 4294967296
crash 18446744073709551616
stop 0
fail selector 0
failread selector 0
cut 0 0
caller 0 0 0
caller 17 0 0
caller 02 0 0
caller 2 4294967296 0
caller 2 0 4294967296
0 close 0
17 close 0
01 close 0
queue 17 0";

/// Lines that no script has: modes, paths, flags.
const BAD_FILES: &str = "\
1 mkdir /a 755
1 mkdir /a 00755
1 mkdir /a 1755
1 mkdir /a 0855
1 mkdir /a 0785
1 mkdir /a 0758
1 unlink a
1 unlink /a/
1 unlink //a
1 unlink /a//b
1 unlink /a+b
1 open /a c 0644
1 open /a wr
1 open /a rr
1 open /a cr 0644
1 open /a rxc 0644
1 open /a rax
1 open /a rwc
1 open /a r 0644
1 open /a R";

/// Lines that no script has: data, seeks, devices.
const BAD_VALUES: &str = "\
1 write 0 x:0
1 write 0 t
1 write 0 t:a b
1 write 0 t:\x7f
1 write 0 h:0
1 write 0 h:0g
1 write 0 h:0A
1 write 0 r:1
1 write 0 r:1:0
1 write 0 r:1:000
1 write 0 r:1:0A
1 write 0 r:1:00:
1 write 0 r::00
1 write 0 r:01:00
1 write 0 r:65537:00
1 lseek 0 end 1
1 lseek 0 set -1
1 lseek 0 cur -
1 lseek 0 cur -01
1 lseek 0 cur --1
fail disk 1 1
fail table 2 1
fail journal 64 1
fail size 256 1
fail slot 1 1
fail block 4294967296 1";

/// Where a line can stand: what is before it, what is behind it, and its number.
const PLACES: [(&str, &str, u64); 5] = [
    ("", "\ncaller 1 0 0\n", 1),
    ("caller 1 0 0\n", "\n1 close 0\n", 2),
    ("caller 1 0 0\n\n# x\n1 close 0\n", "\n\nbad\n", 5),
    ("caller 1 0 0\n1 close 0\n", "\n", 3),
    ("caller 1 0 0\n1 close 0\n", "", 3),
];

/// Whether the line is the first outside wherever it stands, from the line of this number on.
fn is_outside(alloc: Global, command: Command, line: &str, least: u64) -> Result<bool, NoMemory> {
    for (before, after, number) in PLACES {
        let text = format!(in alloc; "{before}{line}{after}")?;
        let outcome = outcome(alloc, command, text.as_str())?;
        if number >= least && outcome != Err(number) {
            return Ok(false);
        }
    }
    Ok(true)
}

/// Fails at the first line of the table that is not the first outside wherever it stands.
fn refuse_all(alloc: Global, command: Command, table: &str, least: u64) -> Result<(), Fail> {
    for line in table.split('\n') {
        if !is_outside(alloc, command, line, least)? {
            return Err(Fail::new(line));
        }
    }
    Ok(())
}

/// Lines that may not stand behind the line of caller 1.
const BAD_BEHIND: &str = "caller 1 0 0\n2 close 0\nqueue 2 0";

#[test]
fn the_first_line_outside_is_named(rt: HostRuntime) -> Result<(), Fail> {
    let alloc = rt.alloc();
    for table in [BAD_FRONTS, BAD_FILES, BAD_VALUES] {
        refuse_all(alloc, Command::Play, table, 1)?;
        refuse_all(alloc, Command::Run, table, 1)?;
    }
    refuse_all(alloc, Command::Run, PLAYED, 1)?;
    refuse_all(alloc, Command::Play, "cut 1 0", 1)?;
    refuse_all(alloc, Command::Play, BAD_BEHIND, 2)
}

#[test]
fn a_second_cut_is_outside(rt: HostRuntime) -> Result<(), Fail> {
    for (text, number) in [
        ("cut 1 0\ncut 1 0\ncaller 1 0 0\n", 2),
        ("cut 1 0\n\n# x\ncut 2 0\nbad\n", 4),
        ("caller 1 0 0\ncut 1 0\n1 close 0\ncut 1 0", 4),
    ] {
        assert_eq!(rt;
            outcome(rt.alloc(), Command::Run, text)?,
            Err(number),
            "{text}"
        );
    }
    Ok(())
}

/// So many copies of the text.
fn copies(alloc: Global, text: &str, count: usize) -> Result<String, NoMemory> {
    let mut copies = String::new(alloc);
    for _ in 0..count {
        copies.push_str(text)?;
    }
    Ok(copies)
}

/// What comes of a script of so many empty lines.
fn outcome_of_lines(alloc: Global, count: usize) -> Result<Result<usize, u64>, NoMemory> {
    let text = copies(alloc, "\n", count)?;
    outcome(alloc, Command::Play, text.as_str())
}

/// Whether a path is read of so many names of one letter, and a last one of so many letters.
fn is_path(alloc: Global, names: usize, letters: usize) -> Result<bool, NoMemory> {
    let front = copies(alloc, "/a", names)?;
    let name = copies(alloc, "b", letters)?;
    let text = format!(in alloc; "caller 1 0 0\n1 rmdir {front}/{name}\n")?;
    Ok(outcome(alloc, Command::Run, text.as_str())? == Ok(2))
}

#[test]
fn names_paths_and_scripts_have_bounds(rt: HostRuntime) -> Result<(), Fail> {
    let alloc = rt.alloc();
    assert_eq!(rt; (CALLERS, MOST_LINES), (16, 65_536));
    for (count, wanted) in [(0, Ok(0)), (65_536, Ok(0)), (65_537, Err(65_537))] {
        assert_eq!(rt; outcome_of_lines(alloc, count)?, wanted);
    }
    for (names, letters, wanted) in [
        (0, 200, true),
        (0, 201, false),
        (63, 200, true),
        (64, 1, false),
    ] {
        assert_eq!(rt;
            is_path(alloc, names, letters)?,
            wanted,
            "{names} {letters}"
        );
    }
    Ok(())
}

#[test]
fn lines_have_numbers_and_forms(rt: HostRuntime) -> Result<(), Fail> {
    let alloc = rt.alloc();
    let script = read_play(alloc, b"# first\ncaller 1 10 20\n\ncrash 3")?;
    let wanted = vec![in alloc;
        Line {
            number: 2,
            form: Form::Caller {
                caller: 1,
                uid: 10,
                gid: 20
            }
        },
        Line {
            number: 4,
            form: Form::Crash { pick: 3 }
        },
    ]?;
    assert!(rt; script.lines() == wanted.as_slice());
    let again = print_and_read_play(alloc, &script)?;
    assert!(rt; again.lines().iter().map(|line| line.number).eq([1, 2]));
    assert!(rt; script.into_lines() == wanted);
    let none = Script::new(Command::Run, Vec::new(alloc));
    assert!(rt; none.lines().is_empty());
    Ok(())
}

#[test]
fn refusals_are_printed(rt: HostRuntime) -> Result<(), Fail> {
    let alloc = rt.alloc();
    assert_eq!(rt;
        format!(in alloc; "{}", ScriptRefusal::Line(3))?.as_str(),
        "line 3 is outside the grammar"
    );
    assert_eq!(rt;
        format!(in alloc; "{}", ScriptRefusal::from(NoMemory))?.as_str(),
        "out of memory"
    );
    Ok(())
}
