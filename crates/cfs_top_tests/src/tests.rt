use cfs_file::{Bytes, NoMemory, Word};
use cfs_image::{NAME, new_image};
use cfs_io::{MemShelf, MemSink, MemSource, Shelf};
use cfs_top::{Status, crossfs_steady};
use std::alloc::Global;
use std::test::Fail;

fn words_of(alloc: Global, texts: &[&str]) -> Result<Vec<Word>, NoMemory> {
    let mut words = Vec::new(alloc);
    for text in texts {
        words.push(Word::from_slice(alloc, text.as_bytes())?)?;
    }
    Ok(words)
}

fn numbers(alloc: Global, number: Option<u64>) -> Result<Vec<u64>, NoMemory> {
    let mut numbers = Vec::new(alloc);
    if let Some(number) = number {
        numbers.push(number)?;
    }
    Ok(numbers)
}

/// What a call of the program gave.
#[derive(Debug, Drop)]
struct Ended {
    status: Status,
    output: Vec<u8>,
}

// A call over a source whose read of that number fails, and a sink whose write of
// that number fails.
fn run(
    alloc: Global,
    texts: &[&str],
    script: &str,
    read: Option<u64>,
    write: Option<u64>,
) -> Result<Ended, NoMemory> {
    let words = words_of(alloc, texts)?;
    let bytes = Vec::from_slice(alloc, script.as_bytes())?;
    let mut input = MemSource::new(bytes, numbers(alloc, read)?);
    let mut output = MemSink::new(alloc, numbers(alloc, write)?);
    let mut shelf = MemShelf::new(alloc, Vec::new(alloc));
    let status = crossfs_steady(alloc, words.as_slice(), &mut input, &mut output, &mut shelf);
    Ok(Ended {
        status,
        output: Vec::from_slice(alloc, output.written())?,
    })
}

const BEGIN: &str = "caller 1 10 10\n1 open /a rwc 0644\n";

#[test]
fn scripts_answer_their_lines(rt: HostRuntime) -> Result<(), Fail> {
    for (script, status, expected) in [
        ("", Status::Done, ""),
        (
            "caller 1 10 10\n1 open /a rwc 0644",
            Status::Done,
            "2 ok ns=1 fd=0 ino=2\n",
        ),
        (
            "caller 1 10 10\n1 open /a rwc 0644\n1 pwrite 0 10 t:xyz\n1 pread 0 0 12\n",
            Status::Done,
            "2 ok ns=1 fd=0 ino=2\n3 ok ino=2 place=1 off=10 n=3\n\
            4 ok ino=2 place=2 n=12 h:000000000000000000007879\n",
        ),
        (
            "caller 1 10 10\n1 open /a rwc 0644\n1 pread 0 0 3\n1 pwrite 0 0 t:abc\n\
            1 pread 0 1 1\n1 pwrite 0 1 t:Z\n1 pread 0 0 4096\n",
            Status::Done,
            "2 ok ns=1 fd=0 ino=2\n3 ok ino=2 place=1 n=0 h:\n4 ok ino=2 place=2 off=0 n=3\n\
            5 ok ino=2 place=3 n=1 h:62\n6 ok ino=2 place=4 off=1 n=1\n\
            7 ok ino=2 place=5 n=3 h:615a63\n",
        ),
        (
            "caller 1 10 10\n1 opne /a r\n",
            Status::Script,
            "script refused\n",
        ),
        ("caller 1 10 10\n", Status::Done, ""),
        ("caller 2 10 10\n", Status::Script, "script refused\n"),
        (
            "# a comment\ncaller 1 10 10\n\n1 open /a rwc 0644\n1 pwrite 0 0 h:6869\n1 pread 0 0 2",
            Status::Done,
            "4 ok ns=1 fd=0 ino=2\n5 ok ino=2 place=1 off=0 n=2\n6 ok ino=2 place=2 n=2 h:6869\n",
        ),
        (
            "caller 1 10 10\n1 open /b rwc 0644\n",
            Status::Script,
            "script refused\n",
        ),
        (
            "caller 1 10 10\n1 open /a rwc 0644\n1 pread 0 00 3\n",
            Status::Script,
            "script refused\n",
        ),
    ] {
        let ended = run(rt.alloc(), &["crossfs", "play", "d"], script, None, None)?;
        assert_eq!(rt; ended.output.as_slice(), expected.as_bytes(), "{script}");
        assert_eq!(rt; ended.status, status, "{script}");
    }
    Ok(())
}

#[test]
fn a_script_that_is_too_long_is_refused(rt: HostRuntime) -> Result<(), Fail> {
    let alloc = rt.alloc();
    let words = words_of(alloc, &["crossfs", "play", "d"])?;
    let mut input = MemSource::new(vec![in alloc; b'#'; 16_777_217]?, Vec::new(alloc));
    let mut output = MemSink::new(alloc, Vec::new(alloc));
    let mut shelf = MemShelf::new(alloc, Vec::new(alloc));
    let status = crossfs_steady(alloc, words.as_slice(), &mut input, &mut output, &mut shelf);
    assert_eq!(rt; status, Status::Script);
    assert_eq!(rt; output.written(), b"script refused\n".as_slice());
    Ok(())
}

#[test]
fn other_words_are_usage(rt: HostRuntime) -> Result<(), Fail> {
    let half = "123456789/123456789/123456789/123456789/123456789/\
        123456789/123456789/123456789/123456789/123456789/";
    let longest = format!(in rt.alloc(); "{half}{half}")?;
    let longer = format!(in rt.alloc(); "{half}{half}.")?;
    for (command, image, status) in [
        ("play", "a-/B_9.", Status::Done),
        ("play", "-a", Status::Usage),
        ("play", longest.as_str(), Status::Done),
        ("play", longer.as_str(), Status::Usage),
        ("play", "", Status::Usage),
        ("play", "a b", Status::Usage),
        ("plays", "d", Status::Usage),
    ] {
        let ended = run(rt.alloc(), &["crossfs", command, image], "", None, None)?;
        assert_eq!(rt; ended.status, status, "{command} {image}");
        let expected = if status == Status::Usage {
            "usage\n"
        } else {
            ""
        };
        assert_eq!(rt;
            ended.output.as_slice(),
            expected.as_bytes(),
            "{command} {image}"
        );
    }
    let few = run(rt.alloc(), &["crossfs", "play"], "", None, None)?;
    assert_eq!(rt; few.status, Status::Usage);
    let many = run(rt.alloc(), &["crossfs", "play", "d", "d"], "", None, None)?;
    assert_eq!(rt; many.status, Status::Usage);
    Ok(())
}

#[test]
fn a_fault_ends_the_call(rt: HostRuntime) -> Result<(), Fail> {
    let open = "2 ok ns=1 fd=0 ino=2\n";
    for (words, script, read, write, status, expected) in [
        ("play", BEGIN, Some(1), None, Status::Input, ""),
        ("play", BEGIN, Some(2), None, Status::Input, ""),
        ("play", BEGIN, None, Some(1), Status::Output, ""),
        ("play", BEGIN, None, Some(2), Status::Done, open),
        ("pl", BEGIN, Some(1), Some(1), Status::Output, ""),
        ("play", "bad\n", None, Some(1), Status::Output, ""),
    ] {
        let ended = run(rt.alloc(), &["crossfs", words, "d"], script, read, write)?;
        assert_eq!(rt; ended.status, status, "{words} {script}");
        assert_eq!(rt;
            ended.output.as_slice(),
            expected.as_bytes(),
            "{words} {script}"
        );
    }
    Ok(())
}

#[test]
fn each_status_has_its_number(rt: HostRuntime) {
    for (status, number) in [
        (Status::Done, 0),
        (Status::Usage, 1),
        (Status::Script, 2),
        (Status::Image, 3),
        (Status::Input, 4),
        (Status::Output, 5),
        (Status::Shelf, 6),
        (Status::NoMemory, 7),
        (Status::Absent, 8),
        (Status::NoFile, 9),
    ] {
        assert_eq!(rt; status.number(), number);
    }
}

/// A shelf with the files `d` and `e`, whose call of that number fails.
fn shelf_of_two(alloc: Global, failing: Option<u64>) -> Result<MemShelf, NoMemory> {
    let mut files = Vec::new(alloc);
    for name in ["d", "e"] {
        let word = Word::from_slice(alloc, name.as_bytes())?;
        files.push((word, Bytes::from_slice(alloc, b"old")?))?;
    }
    Ok(MemShelf::with_files(alloc, files, numbers(alloc, failing)?))
}

/// Calls `mkfs` over a source whose first read fails and a sink whose first write fails.
fn make_store(
    alloc: Global,
    shelf: &mut MemShelf,
    image: &str,
    blocks: &str,
    queues: &str,
) -> Result<Status, NoMemory> {
    let words = words_of(alloc, &["crossfs", "mkfs", image, blocks, queues])?;
    let mut input = MemSource::new(Vec::new(alloc), numbers(alloc, Some(1))?);
    let mut output = MemSink::new(alloc, numbers(alloc, Some(1))?);
    Ok(crossfs_steady(alloc, words.as_slice(), &mut input, &mut output, shelf))
}

fn load(alloc: Global, shelf: &mut MemShelf, name: &str) -> Result<Vec<u8>, Fail> {
    let word = Word::from_slice(alloc, name.as_bytes())?;
    Ok(shelf.load(&word)?.into_vec())
}

#[test]
fn mkfs_saves_a_new_image(rt: HostRuntime) -> Result<(), Fail> {
    let alloc = rt.alloc();
    let want = new_image(alloc, 16, 1)?;
    assert_eq!(rt; want.len(), 191_416);
    for image in ["d", "new"] {
        let mut shelf = shelf_of_two(alloc, None)?;
        let status = make_store(alloc, &mut shelf, image, "16", "1")?;
        assert_eq!(rt; status, Status::Done);
        let saved = load(alloc, &mut shelf, image)?;
        assert!(rt; saved.as_slice() == want.as_slice(), "{image}");
        let other = load(alloc, &mut shelf, "e")?;
        assert_eq!(rt; other.as_slice(), b"old".as_slice());
    }
    Ok(())
}

#[test]
fn mkfs_that_cannot_save_is_a_fault_of_the_shelf(rt: HostRuntime) -> Result<(), Fail> {
    let alloc = rt.alloc();
    let mut shelf = shelf_of_two(alloc, Some(1))?;
    let status = make_store(alloc, &mut shelf, "d", "16", "1")?;
    assert_eq!(rt; status, Status::Shelf);
    assert_eq!(rt; shelf.save_faults(), 1);
    for name in ["d", "e"] {
        let kept = load(alloc, &mut shelf, name)?;
        assert_eq!(rt; kept.as_slice(), b"old".as_slice(), "{name}");
    }
    Ok(())
}

#[test]
fn mkfs_takes_numbers_in_their_ranges(rt: HostRuntime) -> Result<(), Fail> {
    let alloc = rt.alloc();
    for (image, blocks, queues) in [
        ("-d", "16", "1"),
        ("", "16", "1"),
        ("d", "15", "1"),
        ("d", "16385", "1"),
        ("d", "4294967312", "1"),
        ("d", "016", "1"),
        ("d", "+16", "1"),
        ("d", "16", "0"),
        ("d", "16", "65"),
        ("d", "16", ""),
        ("d", "16 ", "1"),
    ] {
        let words = ["crossfs", "mkfs", image, blocks, queues];
        let ended = run(alloc, &words, "", Some(1), None)?;
        assert_eq!(rt; ended.status, Status::Usage, "{image} {blocks} {queues}");
        assert_eq!(rt; ended.output.as_slice(), b"usage\n".as_slice());
    }
    for words in [
        ["crossfs", "mkfs", "d", "16"],
        ["crossfs", "mkfs", "16", "1"],
    ] {
        let ended = run(alloc, &words, "", Some(1), None)?;
        assert_eq!(rt; ended.status, Status::Usage);
    }
    Ok(())
}

fn put_word(image: &mut Vec<u8>, at: usize, word: u64) {
    if at < image.len() && image.len() - at >= 8 {
        image[at..at + 8].copy_from_slice(&word.to_le_bytes());
    }
}

/// The image of version 1 of a new store of 16 blocks and one queue.
fn old_image(alloc: Global) -> Result<Vec<u8>, NoMemory> {
    let mut image = vec![in alloc; 0; 190_904]?;
    for (at, word) in [(0, NAME), (8, 1), (16, 16), (24, 1)] {
        put_word(&mut image, at, word);
    }
    for (at, word) in [(40, 2), (48, 1), (56, 1), (64, 2), (72, 0o777)] {
        put_word(&mut image, at, word);
    }
    Ok(image)
}

/// A shelf whose call of that number fails: the image of version 1 as `d`, its front as `cut`, and
/// the image of the present version as `e`.
fn shelf_of_images(alloc: Global, failing: Option<u64>) -> Result<MemShelf, NoMemory> {
    let old = old_image(alloc)?;
    let new = new_image(alloc, 16, 1)?;
    let mut files = Vec::new(alloc);
    for (name, bytes) in [
        ("d", old.as_slice()),
        ("cut", old.get(..1000).unwrap_or(&[])),
        ("e", new.as_slice()),
    ] {
        let word = Word::from_slice(alloc, name.as_bytes())?;
        files.push((word, Bytes::from_slice(alloc, bytes)?))?;
    }
    Ok(MemShelf::with_files(alloc, files, numbers(alloc, failing)?))
}

/// Calls `upgrade` over a source whose first read fails, and a sink whose write of that number
/// does.
fn upgrade(
    alloc: Global,
    shelf: &mut MemShelf,
    image: &str,
    new: &str,
    write: Option<u64>,
) -> Result<Ended, NoMemory> {
    let words = words_of(alloc, &["crossfs", "upgrade", image, new])?;
    let mut input = MemSource::new(Vec::new(alloc), numbers(alloc, Some(1))?);
    let mut output = MemSink::new(alloc, numbers(alloc, write)?);
    let status = crossfs_steady(alloc, words.as_slice(), &mut input, &mut output, shelf);
    Ok(Ended {
        status,
        output: Vec::from_slice(alloc, output.written())?,
    })
}

#[test]
fn upgrade_saves_the_new_image_or_says_why_not(rt: HostRuntime) -> Result<(), Fail> {
    let alloc = rt.alloc();
    let old = old_image(alloc)?;
    for (image, new, failing, write, status, expected) in [
        ("d", "f", None, None, Status::Done, ""),
        ("d", "cut", None, Some(1), Status::Done, ""),
        (
            "e",
            "f",
            None,
            None,
            Status::Image,
            "image refused: offset 8 found 2 against 1\n",
        ),
        (
            "cut",
            "f",
            None,
            None,
            Status::Image,
            "image refused: offset 1000 found 1000 against 190904\n",
        ),
        ("f", "e", None, None, Status::Absent, "absent\n"),
        ("f", "e", None, Some(1), Status::Output, ""),
        ("cut", "f", None, Some(1), Status::Output, ""),
        ("d", "f", Some(1), None, Status::Shelf, ""),
        ("d", "f", Some(2), None, Status::Shelf, ""),
        ("d", "d", None, None, Status::Usage, "usage\n"),
        ("d", "-f", None, None, Status::Usage, "usage\n"),
        ("d", "", None, None, Status::Usage, "usage\n"),
        ("a b", "f", None, None, Status::Usage, "usage\n"),
    ] {
        let mut shelf = shelf_of_images(alloc, failing)?;
        let ended = upgrade(alloc, &mut shelf, image, new, write)?;
        assert_eq!(rt; ended.status, status, "{image} {new}");
        assert_eq!(rt;
            ended.output.as_slice(),
            expected.as_bytes(),
            "{image} {new}"
        );
        let kept = load(alloc, &mut shelf, "d")?;
        assert!(rt; kept.as_slice() == old.as_slice(), "{image} {new}");
    }
    Ok(())
}

#[test]
fn upgrade_saves_under_the_new_name(rt: HostRuntime) -> Result<(), Fail> {
    let alloc = rt.alloc();
    let want = new_image(alloc, 16, 1)?;
    for name in ["f", "cut"] {
        let mut shelf = shelf_of_images(alloc, None)?;
        let ended = upgrade(alloc, &mut shelf, "d", name, None)?;
        assert_eq!(rt; ended.status, Status::Done);
        let saved = load(alloc, &mut shelf, name)?;
        assert!(rt; saved.as_slice() == want.as_slice(), "{name}");
    }
    let mut shelf = shelf_of_images(alloc, Some(1))?;
    let ended = upgrade(alloc, &mut shelf, "d", "f", None)?;
    assert_eq!(rt;
        (ended.status, shelf.load_faults(), shelf.save_faults()),
        (Status::Shelf, 1, 0)
    );
    Ok(())
}

/// Calls `check` over a source whose first read fails, and a sink whose write of that number does.
fn check(
    alloc: Global,
    shelf: &mut MemShelf,
    image: &str,
    write: Option<u64>,
) -> Result<Ended, NoMemory> {
    let words = words_of(alloc, &["crossfs", "check", image])?;
    let mut input = MemSource::new(Vec::new(alloc), numbers(alloc, Some(1))?);
    let mut output = MemSink::new(alloc, numbers(alloc, write)?);
    let status = crossfs_steady(alloc, words.as_slice(), &mut input, &mut output, shelf);
    Ok(Ended {
        status,
        output: Vec::from_slice(alloc, output.written())?,
    })
}

#[test]
fn check_tells_what_an_image_holds_or_why_not(rt: HostRuntime) -> Result<(), Fail> {
    let alloc = rt.alloc();
    let old = old_image(alloc)?;
    for (image, failing, write, status, expected) in [
        (
            "e",
            None,
            None,
            Status::Done,
            "ok nodes=1 live=0 noop=0 blocks=0\n",
        ),
        (
            "d",
            None,
            None,
            Status::Image,
            "image refused: offset 8 found 1 against 2\n",
        ),
        ("f", None, None, Status::Absent, "absent\n"),
        ("e", None, Some(1), Status::Output, ""),
        ("d", None, Some(1), Status::Output, ""),
        ("f", None, Some(1), Status::Output, ""),
        ("e", Some(1), None, Status::Shelf, ""),
        ("-e", None, None, Status::Usage, "usage\n"),
    ] {
        let mut shelf = shelf_of_images(alloc, failing)?;
        let ended = check(alloc, &mut shelf, image, write)?;
        assert_eq!(rt; ended.status, status, "{image}");
        assert_eq!(rt; ended.output.as_slice(), expected.as_bytes(), "{image}");
        let kept = load(alloc, &mut shelf, "d")?;
        assert!(rt; kept.as_slice() == old.as_slice(), "{image}");
    }
    Ok(())
}

#[test]
fn upgrade_refuses_an_image_that_would_be_unsound(rt: HostRuntime) -> Result<(), Fail> {
    let alloc = rt.alloc();
    // the gate of the second journal record is above the last change, and the mode of the root is
    // none; the fault is named where it stands in the image of version 2
    for (at, word, expected) in [
        (49_328, 7, "image refused: offset 49336 found 7 against 0\n"),
        (72, 512, "image refused: offset 72 found 512 against 511\n"),
    ] {
        let mut old = old_image(alloc)?;
        put_word(&mut old, at, word);
        let mut files = Vec::new(alloc);
        let name = Word::from_slice(alloc, b"d")?;
        files.push((name, Bytes::from_slice(alloc, &old)?))?;
        let mut shelf = MemShelf::with_files(alloc, files, numbers(alloc, None)?);
        let ended = upgrade(alloc, &mut shelf, "d", "f", None)?;
        assert_eq!(rt; ended.status, Status::Image);
        assert_eq!(rt; ended.output.as_slice(), expected.as_bytes());
        let other = upgrade(alloc, &mut shelf, "f", "g", None)?;
        assert_eq!(rt; other.status, Status::Absent);
    }
    Ok(())
}

/// An image of 16 blocks and one queue with a file `/a` of six bytes in a block, of which a write
/// in a slot changes three, and a directory `/b`.
fn image_with_a_file(alloc: Global) -> Result<Vec<u8>, NoMemory> {
    let mut image = new_image(alloc, 16, 1)?.into_vec();
    let file = [2, 1, 1, 0o644, 10, 10, 1, 97];
    let directory = [3, 1, 2, 0o755, 10, 10, 1, 98];
    for (at, words) in [(144, file), (240, directory)] {
        for (k, word) in words.iter().enumerate() {
            put_word(&mut image, at + 8 * k, *word);
        }
    }
    for (at, word) in [
        (40, 4),
        (57_408, 6),
        (59_448, 1),
        (59_464, 2),
        (59_480, 65_539),
        (59_488, 1),
        (59_496, u64::from_le_bytes(*b"HEL\0\0\0\0\0")),
        (138_064, 131_073),
        (138_072, u64::from_le_bytes(*b"hello\n\0\0")),
    ] {
        put_word(&mut image, at, word);
    }
    Ok(image)
}

/// A shelf whose call of that number fails: the image with a file as `f`, and the same with a wrong
/// header as `g`.
fn shelf_with_a_file(alloc: Global, failing: Option<u64>) -> Result<MemShelf, NoMemory> {
    let mut image = image_with_a_file(alloc)?;
    let mut files = Vec::new(alloc);
    for name in ["f", "g"] {
        let word = Word::from_slice(alloc, name.as_bytes())?;
        files.push((word, Bytes::from_slice(alloc, &image)?))?;
        put_word(&mut image, 8, 3);
    }
    Ok(MemShelf::with_files(alloc, files, numbers(alloc, failing)?))
}

/// Calls `dump` over a source whose first read fails, and a sink whose write of that number does.
fn dump(
    alloc: Global,
    image: &str,
    path: &str,
    failing: Option<u64>,
    write: Option<u64>,
) -> Result<Ended, NoMemory> {
    let words = words_of(alloc, &["crossfs", "dump", image, path])?;
    let mut shelf = shelf_with_a_file(alloc, failing)?;
    let mut input = MemSource::new(Vec::new(alloc), numbers(alloc, Some(1))?);
    let mut output = MemSink::new(alloc, numbers(alloc, write)?);
    let status = crossfs_steady(alloc, words.as_slice(), &mut input, &mut output, &mut shelf);
    Ok(Ended {
        status,
        output: Vec::from_slice(alloc, output.written())?,
    })
}

#[test]
fn dump_prints_a_file_or_says_why_not(rt: HostRuntime) -> Result<(), Fail> {
    let damaged = "image refused: offset 8 found 3 against 2\n";
    for (image, path, failing, write, status, expected) in [
        ("f", "/a", None, None, Status::Done, "HELlo\n"),
        ("f", "/b", None, None, Status::NoFile, "no file\n"),
        ("f", "/", None, None, Status::NoFile, "no file\n"),
        ("f", "/c", None, None, Status::NoFile, "no file\n"),
        ("f", "/a/a", None, None, Status::NoFile, "no file\n"),
        ("f", "a", None, None, Status::Usage, "usage\n"),
        ("f", "/a/", None, None, Status::Usage, "usage\n"),
        ("f", "", None, None, Status::Usage, "usage\n"),
        ("-f", "/a", None, None, Status::Usage, "usage\n"),
        ("g", "/a", None, None, Status::Image, damaged),
        ("none", "/a", None, None, Status::Absent, "absent\n"),
        ("f", "/a", Some(1), None, Status::Shelf, ""),
        ("f", "/a", None, Some(1), Status::Output, ""),
        ("f", "/c", None, Some(1), Status::Output, ""),
    ] {
        let ended = dump(rt.alloc(), image, path, failing, write)?;
        assert_eq!(rt;
            ended.output.as_slice(),
            expected.as_bytes(),
            "{image} {path}"
        );
        assert_eq!(rt; ended.status, status, "{image} {path}");
    }
    Ok(())
}
