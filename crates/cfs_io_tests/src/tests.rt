//! What no clause says: that the calls succeed, and that the definitions mean what they should.

use cfs_file::{Bytes, Word};
use cfs_io::{
    FileShelf, Folder, IoFault, LARGEST_FILE, LONGEST_SCRIPT, LoadRefusal, MemFolder, MemShelf,
    MemSink, MemSource, ReadRefusal, Shelf, Sink, StdSink, StdSource, SystemFolder, read_script,
    write_all,
};
use std::alloc::Global;
use std::test::Fail;
use std::{env, fs, io};

/// A reader whose second read fails.
#[derive(Drop)]
struct Broken {
    is_broken: bool,
}

impl io::Read for Broken {
    fn read(&mut self, out: &mut [u8]) -> io::Result<usize> {
        if self.is_broken || out.is_empty() {
            return Err(io::Error::from(io::ErrorKind::Other));
        }
        self.is_broken = true;
        out[0] = b'#';
        Ok(1)
    }
}

#[test]
fn reads_a_source_up_to_its_end_or_its_fault(rt: HostRuntime) -> Result<(), Fail> {
    let alloc = rt.alloc();
    let cases: [(usize, u64, Option<&str>, &str); 6] = [
        (64, 0, Some("hello world"), ""),
        (4, 0, Some("hello world"), ""),
        (1, 0, Some("hello world"), ""),
        (4, 1, None, "hello world"),
        (4, 3, None, "rld"),
        // The fifth read is never made.
        (4, 5, Some("hello world"), ""),
    ];
    for (chunk, failing, want, left) in cases {
        let bytes = Vec::from_slice(alloc, b"hello world")?;
        let failing = Vec::from_slice(alloc, &[failing])?;
        let mut source = MemSource::in_chunks(bytes, chunk.max(1), failing);
        let read = read_script(alloc, &mut source);
        match want {
            Some(want) => {
                assert_eq!(rt; read?.as_slice(), want.as_bytes(), "in chunks of {chunk}");
                assert_eq!(rt; source.faults(), 0);
            }
            None => {
                assert_eq!(rt;
                    read.err(),
                    Some(ReadRefusal::Failed),
                    "in chunks of {chunk}"
                );
                assert_eq!(rt; source.faults(), 1);
            }
        }
        assert_eq!(rt; source.left(), left.as_bytes(), "in chunks of {chunk}");
    }
    Ok(())
}

#[test]
fn reads_the_longest_script_and_none_longer(rt: HostRuntime) -> Result<(), Fail> {
    let alloc = rt.alloc();
    let longest = LONGEST_SCRIPT as usize;
    for (length, want) in [(longest, None), (longest + 1, Some(ReadRefusal::TooLong))] {
        let mut source = MemSource::new(vec![in alloc; b'#'; length]?, Vec::new(alloc));
        match read_script(alloc, &mut source) {
            Ok(script) => {
                assert_eq!(rt; want, None);
                assert_eq!(rt; script.len(), length);
            }
            Err(refusal) => assert_eq!(rt; want, Some(refusal)),
        }
    }
    Ok(())
}

#[test]
fn writes_a_piece_up_to_its_end_or_a_fault(rt: HostRuntime) -> Result<(), Fail> {
    let alloc = rt.alloc();
    let cases: [(usize, u64, Result<(), IoFault>, &str); 4] = [
        (64, 0, Ok(()), "hello world"),
        (3, 0, Ok(()), "hello world"),
        (3, 3, Err(IoFault), "hello "),
        (64, 1, Err(IoFault), ""),
    ];
    for (chunk, failing, want, written) in cases {
        let failing = Vec::from_slice(alloc, &[failing])?;
        let mut sink = MemSink::in_chunks(alloc, chunk.max(1), failing);
        assert_eq!(rt;
            write_all(&mut sink, b"hello world"),
            want,
            "in chunks of {chunk}"
        );
        assert_eq!(rt; sink.written(), written.as_bytes(), "in chunks of {chunk}");
        assert_eq!(rt; sink.faults() == 0, want.is_ok());
    }
    let mut sink = MemSink::new(alloc, Vec::new(alloc));
    assert_eq!(rt; sink.write(b"ab"), Ok(2));
    assert_eq!(rt; sink.write(b""), Ok(0));
    assert_eq!(rt; sink.written(), b"ab".as_slice());
    Ok(())
}

/// What a shelf answers: to a save of some bytes no bytes, or that it failed; without bytes, to a
/// load.
fn answer<H: Shelf>(
    alloc: Global,
    shelf: &mut H,
    name: &str,
    bytes: Option<&str>,
) -> Result<Bytes, LoadRefusal> {
    let name = Word::from_slice(alloc, name.as_bytes())?;
    let Some(bytes) = bytes else {
        return shelf.load(&name);
    };
    shelf.save(&name, bytes.as_bytes())?;
    Ok(Bytes::new(alloc))
}

fn is_answer(answer: &Result<Bytes, LoadRefusal>, want: Result<&str, LoadRefusal>) -> bool {
    match (answer, want) {
        (Ok(bytes), Ok(want)) => bytes.as_slice() == want.as_bytes(),
        (Err(refusal), Err(want)) => *refusal == want,
        _ => false,
    }
}

#[test]
fn keeps_files_by_name(rt: HostRuntime) -> Result<(), Fail> {
    let alloc = rt.alloc();
    let mut shelf = MemShelf::new(alloc, Vec::from_slice(alloc, &[6, 7])?);
    let calls: [(&str, Option<&str>, Result<&str, LoadRefusal>); 9] = [
        ("a", None, Err(LoadRefusal::Absent)),
        ("a", Some("one"), Ok("")),
        ("b", Some("two"), Ok("")),
        ("a", Some("three"), Ok("")),
        ("a", None, Ok("three")),
        ("b", Some("lost"), Err(LoadRefusal::Failed)),
        ("b", None, Err(LoadRefusal::Failed)),
        ("b", None, Ok("two")),
        ("", None, Err(LoadRefusal::Absent)),
    ];
    for (name, bytes, want) in calls {
        let answer = answer(alloc, &mut shelf, name, bytes);
        assert!(rt; is_answer(&answer, want), "at {name}");
    }
    assert_eq!(rt; shelf.load_faults(), 1);
    assert_eq!(rt; shelf.save_faults(), 1);
    Ok(())
}

#[test]
fn takes_the_first_file_of_a_name(rt: HostRuntime) -> Result<(), Fail> {
    let alloc = rt.alloc();
    let mut files = Vec::new(alloc);
    for bytes in ["first", "second"] {
        let name = Word::from_slice(alloc, b"c")?;
        files.push((name, Bytes::from_slice(alloc, bytes.as_bytes())?))?;
    }
    let mut shelf = MemShelf::with_files(alloc, files, Vec::new(alloc));
    let answer = answer(alloc, &mut shelf, "c", None);
    assert!(rt; is_answer(&answer, Ok("first")));
    Ok(())
}

#[test]
fn reads_through_a_reader_of_std(rt: HostRuntime) -> Result<(), Fail> {
    let alloc = rt.alloc();
    let mut source = StdSource::new(b"hello".as_slice());
    assert_eq!(rt;
        read_script(alloc, &mut source)?.as_slice(),
        b"hello".as_slice()
    );
    assert_eq!(rt; source.faults(), 0);

    let mut source = StdSource::new(Broken { is_broken: false });
    assert_eq!(rt;
        read_script(alloc, &mut source).err(),
        Some(ReadRefusal::Failed)
    );
    assert_eq!(rt; source.faults(), 1);
    Ok(())
}

#[test]
fn writes_through_a_writer_of_std(rt: HostRuntime) -> Result<(), Fail> {
    let alloc = rt.alloc();
    let mut out = Vec::new(alloc);
    let mut sink = StdSink::new(&mut out);
    assert_eq!(rt; write_all(&mut sink, b"hello"), Ok(()));
    assert_eq!(rt; sink.flush(), Ok(()));
    assert_eq!(rt; sink.faults(), 0);
    assert_eq!(rt; out.as_slice(), b"hello".as_slice());

    // A writer with room for four bytes takes none of the fifth.
    let mut sink = StdSink::new(io::Cursor::new([0; 4]));
    assert_eq!(rt; write_all(&mut sink, b"hello"), Err(IoFault));
    assert_eq!(rt; sink.faults(), 1);
    assert_eq!(rt; sink.write(b""), Ok(0));
    Ok(())
}

/// Makes a folder that no other test has.
fn new_folder(rt: &HostRuntime) -> io::Result<String> {
    let alloc = rt.alloc();
    let place = env::temp_dir(rt)?;
    for number in 0..10_000 {
        let folder = format!(in alloc; "{}/crossfs-test-{number}", place.as_str())?;
        match fs::create_dir(rt, folder.as_str()) {
            Err(error) if error.kind() == io::ErrorKind::AlreadyExists => {}
            made => return made.map(|()| folder),
        }
    }
    Err(io::Error::from(io::ErrorKind::AlreadyExists))
}

#[test]
fn keeps_files_of_the_system_by_their_paths(rt: HostRuntime) -> Result<(), Fail> {
    let alloc = rt.alloc();
    let folder = new_folder(&rt)?;
    let mut shelf = FileShelf::new(SystemFolder::new(&rt, alloc), alloc);
    let calls: [(&str, Option<&str>, Result<&str, LoadRefusal>); 11] = [
        ("a", None, Err(LoadRefusal::Absent)),
        ("a", Some("one"), Ok("")),
        ("b", Some(""), Ok("")),
        ("a", Some("three"), Ok("")),
        ("a", None, Ok("three")),
        ("b", None, Ok("")),
        ("a/under", None, Err(LoadRefusal::Absent)),
        // What is no file is not loaded, and a save does not take its place.
        (".", None, Err(LoadRefusal::Failed)),
        (".", Some("lost"), Err(LoadRefusal::Failed)),
        ("none/c", Some("lost"), Err(LoadRefusal::Failed)),
        ("a", None, Ok("three")),
    ];
    for (name, bytes, want) in calls {
        let path = format!(in alloc; "{folder}/{name}")?;
        let answer = answer(alloc, &mut shelf, path.as_str(), bytes);
        assert!(rt; is_answer(&answer, want), "at {name}");
    }
    assert_eq!(rt; shelf.load_faults(), 1);
    assert_eq!(rt; shelf.save_faults(), 2);
    fs::remove_dir_all(&rt, folder.as_str())?;
    Ok(())
}

/// A folder in memory with a file `b`, and with a file `a` or none.
fn folder_of(alloc: Global, has_file: bool, failing: &[u64]) -> Result<MemFolder, Fail> {
    let mut files = Vec::new(alloc);
    let other = Word::from_slice(alloc, b"b")?;
    files.push((other, Bytes::from_slice(alloc, b"other")?))?;
    if has_file {
        let name = Word::from_slice(alloc, b"a")?;
        files.push((name, Bytes::from_slice(alloc, b"old")?))?;
    }
    Ok(MemFolder::new(alloc, &files, Vec::from_slice(alloc, failing)?)?)
}

/// Whether a shelf over the folder has this text under `a`, where `old` is what was there before,
/// if there was a file, and still has the file `b`.
fn holds(alloc: Global, folder: MemFolder, text: &str, had_file: bool) -> bool {
    let mut shelf = FileShelf::new(folder, alloc);
    let want = if text == "old" && !had_file {
        Err(LoadRefusal::Absent)
    } else {
        Ok(text)
    };
    is_answer(&answer(alloc, &mut shelf, "a", None), want)
        && is_answer(&answer(alloc, &mut shelf, "b", None), Ok("other"))
}

#[test]
fn a_save_that_stops_at_a_step_leaves_the_old_file_or_the_new_one(
    rt: HostRuntime,
) -> Result<(), Fail> {
    let alloc = rt.alloc();
    // The step that fails, and then what stands, and what a cut leaves: where the names are as they
    // were made sure, and where they are as they stand.
    let rows: [(u64, bool, &str, &str, &str); 7] = [
        (1, false, "old", "old", "old"),
        (2, false, "old", "old", "old"),
        (3, false, "old", "old", "old"),
        (4, false, "old", "old", "old"),
        (5, false, "old", "old", "old"),
        (6, false, "new", "old", "new"),
        // No step of the save.
        (100, true, "new", "new", "new"),
    ];
    for (step, is_done, stands, kept, renamed) in rows {
        for had_file in [false, true] {
            // One step fails, or that and the next: a cut, and a file beside that can't be removed.
            for failing in [[step, 0], [step, step.saturating_add(1)]] {
                let folder = folder_of(alloc, had_file, &failing)?;
                let mut shelf = FileShelf::new(folder, alloc);
                let saved = answer(alloc, &mut shelf, "a", Some("new"));
                assert_eq!(rt; saved.is_ok(), is_done, "step {step}");
                assert_eq!(rt; shelf.save_faults() == 0, is_done, "step {step}");
                let mut folder = shelf.into_folder();
                let left = folder.after_cut(false)?;
                assert!(rt; holds(alloc, left, kept, had_file), "step {step}");
                let left = folder.after_cut(true)?;
                assert!(rt; holds(alloc, left, renamed, had_file), "step {step}");
                let beside = folder.size(&Word::from_slice(alloc, b"a~0")?).is_ok();
                assert_eq!(rt;
                    beside,
                    failing[1] != 0 && step > 1 && step < 6,
                    "step {step}"
                );
                assert!(rt; holds(alloc, folder, stands, had_file), "step {step}");
            }
        }
    }
    Ok(())
}

#[test]
fn names_for_new_files_are_no_files_of_a_shelf(rt: HostRuntime) -> Result<(), Fail> {
    let alloc = rt.alloc();
    let mut shelf = FileShelf::new(folder_of(alloc, true, &[])?, alloc);
    let calls: [(&str, Option<&str>, Result<&str, LoadRefusal>); 3] = [
        ("a~0", Some("lost"), Err(LoadRefusal::Failed)),
        ("a~0", None, Err(LoadRefusal::Absent)),
        ("a", None, Ok("old")),
    ];
    for (name, bytes, want) in calls {
        let answer = answer(alloc, &mut shelf, name, bytes);
        assert!(rt; is_answer(&answer, want), "at {name}");
    }
    assert_eq!(rt; shelf.save_faults(), 1);
    Ok(())
}

#[test]
fn a_failed_save_leaves_the_old_file(rt: HostRuntime) -> Result<(), Fail> {
    let alloc = rt.alloc();
    let folder = new_folder(&rt)?;
    let path = format!(in alloc; "{folder}/a")?;
    let mut shelf = FileShelf::new(SystemFolder::new(&rt, alloc), alloc);
    assert!(rt; answer(alloc, &mut shelf, path.as_str(), Some("old")).is_ok());

    // Each name that a new file could have is taken.
    for number in 0..10 {
        let taken = format!(in alloc; "{path}~{number}")?;
        fs::write(&rt, taken.as_str(), "taken")?;
    }
    let answer_now = answer(alloc, &mut shelf, path.as_str(), Some("new"));
    assert!(rt; is_answer(&answer_now, Err(LoadRefusal::Failed)));
    let loaded = answer(alloc, &mut shelf, path.as_str(), None);
    assert!(rt; is_answer(&loaded, Ok("old")));
    assert_eq!(rt; shelf.save_faults(), 1);
    fs::remove_dir_all(&rt, folder.as_str())?;
    Ok(())
}

#[test]
fn a_save_keeps_the_permissions(rt: HostRuntime) -> Result<(), Fail> {
    let alloc = rt.alloc();
    let folder = new_folder(&rt)?;
    let path = format!(in alloc; "{folder}/a")?;
    fs::write(&rt, path.as_str(), "old")?;
    let mut own = fs::metadata(&rt, path.as_str())?.permissions();
    own.set_readonly(true);
    fs::set_permissions(&rt, path.as_str(), own)?;
    let mut shelf = FileShelf::new(SystemFolder::new(&rt, alloc), alloc);
    assert!(rt; answer(alloc, &mut shelf, path.as_str(), Some("new")).is_ok());
    assert!(rt; fs::metadata(&rt, path.as_str())?.permissions().readonly());
    fs::remove_dir_all(&rt, folder.as_str())?;
    Ok(())
}

#[test]
fn a_name_that_is_no_text_is_a_fault(rt: HostRuntime) -> Result<(), Fail> {
    let alloc = rt.alloc();
    let mut shelf = FileShelf::new(SystemFolder::new(&rt, alloc), alloc);
    let name = Word::from_slice(alloc, &[b'a', 255])?;
    assert_eq!(rt; shelf.load(&name).err(), Some(LoadRefusal::Failed));
    assert_eq!(rt; shelf.save(&name, b"lost"), Err(IoFault));
    assert_eq!(rt; shelf.load_faults(), 1);
    assert_eq!(rt; shelf.save_faults(), 1);
    Ok(())
}

#[test]
fn a_file_above_the_bound_is_a_fault(rt: HostRuntime) -> Result<(), Fail> {
    let alloc = rt.alloc();
    let folder = new_folder(&rt)?;
    let path = format!(in alloc; "{folder}/a")?;
    // It has no bytes of its own on the disk.
    fs::create(&rt, path.as_str())?.set_len(LARGEST_FILE + 1)?;
    let mut shelf = FileShelf::new(SystemFolder::new(&rt, alloc), alloc);
    let loaded = answer(alloc, &mut shelf, path.as_str(), None);
    assert!(rt; is_answer(&loaded, Err(LoadRefusal::Failed)));
    assert_eq!(rt; shelf.load_faults(), 1);
    fs::remove_dir_all(&rt, folder.as_str())?;
    Ok(())
}

#[test]
fn a_folder_that_takes_no_file_is_a_fault(rt: HostRuntime) -> Result<(), Fail> {
    let alloc = rt.alloc();
    let folder = new_folder(&rt)?;
    let closed = format!(in alloc; "{folder}/closed")?;
    fs::create_dir(&rt, closed.as_str())?;
    let mut own = fs::metadata(&rt, closed.as_str())?.permissions();
    own.set_readonly(true);
    fs::set_permissions(&rt, closed.as_str(), own)?;
    let mut shelf = FileShelf::new(SystemFolder::new(&rt, alloc), alloc);
    // A folder that is not there, and the system's own that takes no file of any user. The closed
    // one takes files of the superuser alone.
    let missing = format!(in alloc; "{folder}/none/a")?;
    for path in [missing.as_str(), "/proc/crossfs-test"] {
        let saved = answer(alloc, &mut shelf, path, Some("lost"));
        assert!(rt; is_answer(&saved, Err(LoadRefusal::Failed)), "at {path}");
    }
    let inside = format!(in alloc; "{closed}/a")?;
    let saved = answer(alloc, &mut shelf, inside.as_str(), Some("new"));
    let mut count = 0_u32;
    for entry in fs::read_dir(&rt, closed.as_str())? {
        entry?;
        count = count.saturating_add(1);
    }
    assert_eq!(rt; count, if saved.is_ok() { 1 } else { 0 });
    fs::remove_dir_all(&rt, folder.as_str())?;
    Ok(())
}
