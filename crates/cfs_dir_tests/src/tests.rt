ghost use Rattle.std.specs.Prelude.{◌≡◌, ◌<◌, None};
ghost use Rattle.std.specs.Option.{ForSome};
ghost use Rattle.cfs_dir.specs.Namespace.{node_at};

use cfs_cred::Credential;
use cfs_dir::{
    CHANGE_WORDS, Change, DEEPEST, INODE_END, Kind, LONGEST_COMPONENT, LONGEST_NAME, MOST_NAMES,
    NODE_WORDS, Name, Node, Path, Posix, RECORDS, Tree, TreeRefusal, changes_are_told, node_words,
    nodes_are_told, tables_are_told,
};
use std::alloc::{AllocError, Global};
use std::process::Abort;
use std::test::Fail;

/// Calls in order on a tree whose root is open to all. A line has a user, whose group has the same
/// number, a call, its mode, its path, and the inode number or the refusal that it answers.
const CALLS: &str = "\
10 mkdir 755 /d 2
10 mkdir 755 /d EEXIST
10 create 644 /d/f 3
10 create 644 /d/f EEXIST
10 create 644 /d EEXIST
10 lookup 0 /d 2
10 lookup 0 /d/f 3
10 lookup 0 /none ENOENT
10 lookup 0 /none/f ENOENT
10 lookup 0 /d/f/g ENOTDIR
10 lookup 0 /./f EINVAL
10 lookup 0 /d/.. EINVAL
10 rmdir 0 /d ENOTEMPTY
10 rmdir 0 /d/f ENOTDIR
10 rmdir 0 /none ENOENT
10 unlink 0 /d EISDIR
10 unlink 0 /none ENOENT
20 create 644 /d/g EACCES
20 create 644 /d/f EEXIST
20 unlink 0 /d/f EACCES
20 unlink 0 /d/none ENOENT
10 mkdir 700 /p 4
10 create 644 /p/f 5
20 lookup 0 /p 4
20 lookup 0 /p/f EACCES
20 lookup 0 /p/none EACCES
20 lookup 0 /p/f/g EACCES
0 lookup 0 /p/f 5
10 mkdir 007 /s 6
10 lookup 0 /s/f EACCES
20 lookup 0 /s/f ENOENT
20 create 644 /s/f 7
0 lookup 0 / 1
0 create 644 / EEXIST
0 mkdir 755 / EEXIST
0 unlink 0 / EISDIR
0 rmdir 0 / EINVAL
0 lookup 0 /aaaaaaaaaaaaaaaaaaaaaaaaaaaaaaaaaaaaaaaa ENOENT
0 lookup 0 /aaaaaaaaaaaaaaaaaaaaaaaaaaaaaaaaaaaaaaaaa ENAMETOOLONG
0 lookup 0 /./aaaaaaaaaaaaaaaaaaaaaaaaaaaaaaaaaaaaaaaaa EINVAL
0 lookup 0 /a/b/c/d/e/f/g/h/i/j/k/l/m/n/o/p ENOENT
0 lookup 0 /a/b/c/d/e/f/g/h/i/j/k/l/m/n/o/p/q ENAMETOOLONG
10 unlink 0 /d/f 3
10 create 644 /d/f 8
10 unlink 0 /d/f 8
10 rmdir 0 /d 2
10 lookup 0 /d ENOENT
";

/// Calls on a tree of user 10 that has 255 directories under its root.
const CALLS_WITHOUT_RECORD: &str = "\
10 mkdir 755 /more ENFILE
10 create 644 /more ENFILE
10 create 644 /n7 EEXIST
20 create 644 /more EACCES
10 create 644 /none/f ENOENT
10 rmdir 0 /n7 9
10 create 644 /n7 257
10 create 644 /more ENFILE
";

/// Calls on a tree of user 10 that has one inode number left.
const CALLS_WITHOUT_NUMBER: &str = "\
10 create 644 /a 4294967295
10 create 644 /b ENFILE
10 unlink 0 /a 4294967295
10 mkdir 755 /a ENFILE
";

/// The lowest record without a node.
fn free_record(tree: &Tree) -> Option<u32>
    ensures { ForSome result (λ rec. (rec < 256) × (node_at tree.now.nodes rec ≡ None)) }
{
    for rec in 0..256 {
        if tree.node(rec).is_none() {
            return Some(rec);
        }
    }
    None
}

/// Makes a call, by its name.
fn call(
    tree: &mut Tree,
    credential: Credential,
    name: &str,
    mode: u16,
    path: &Path,
) -> Result<Node, TreeRefusal> {
    let rec = free_record(tree);
    let mode = mode.min(0o777);
    match name {
        "lookup" => tree.lookup(credential, path),
        "create" => tree.create(credential, path, mode, rec),
        "mkdir" => tree.mkdir(credential, path, mode, rec),
        "unlink" => tree.unlink(credential, path),
        _ => tree.rmdir(credential, path),
    }
}

/// Makes the call of a line, and compares its answer.
fn run_line(rt: &impl Abort, alloc: Global, tree: &mut Tree, line: &str) -> Result<(), Fail> {
    let mut words = line.split_whitespace();
    let user = words.next().ok_or("user")?.parse::<u32>()?;
    let name = words.next().ok_or("call")?;
    let mode = u16::from_str_radix(words.next().ok_or("mode")?, 8)?;
    let path = Path::parse(alloc, words.next().ok_or("path")?.as_bytes())?;
    let want = words.next().ok_or("answer")?;
    let credential = Credential {
        uid: user,
        gid: user,
    };
    let given = match call(tree, credential, name, mode, &path) {
        Ok(node) => format!(in alloc; "{}", node.ino)?,
        Err(refusal) => format!(in alloc; "{refusal}")?,
    };
    assert_eq!(rt; given.as_str(), want, "{line}");
    Ok(())
}

fn run(rt: &impl Abort, alloc: Global, tree: &mut Tree, calls: &str) -> Result<(), Fail> {
    for line in calls.lines() {
        run_line(rt, alloc, tree, line)?;
    }
    Ok(())
}

#[test]
fn calls_in_order(rt: HostRuntime) -> Result<(), Fail> {
    let mut tree = Tree::with_root(rt.alloc(), 0o777, 0, 0)?;
    run(&rt, rt.alloc(), &mut tree, CALLS)?;
    assert_eq!(rt; tree.next(), 9);
    Ok(())
}

/// Makes 255 directories under the root.
fn fill(rt: &impl Abort, alloc: Global, tree: &mut Tree) -> Result<(), Fail> {
    for number in 0..255 {
        let line = format!(in alloc; "10 mkdir 755 /n{number} {}", number + 2)?;
        run_line(rt, alloc, tree, line.as_str())?;
    }
    Ok(())
}

/// The record's number and the words of the node that keeps a record.
fn kept_at(tree: &Tree, rec: u32) -> Option<(u32, [u64; NODE_WORDS])> {
    let node = tree.node(rec)?;
    Some((node.rec, node_words(node)))
}

/// Fills the table, and makes calls that want a record.
fn run_full(rt: &impl Abort, alloc: Global, tree: &mut Tree) -> Result<(), Fail> {
    fill(rt, alloc, tree)?;
    run(rt, alloc, tree, CALLS_WITHOUT_RECORD)?;
    let n7 = [257, 1, 1, 0o644, 10, 10, 2, 0x376e, 0, 0, 0, 0];
    assert_eq!(rt; kept_at(tree, 8), Some((8, n7)));
    assert!(rt; kept_at(tree, 256).is_none());
    Ok(())
}

#[test]
fn full_table(rt: HostRuntime) -> Result<(), Fail> {
    let mut tree = Tree::with_root(rt.alloc(), 0o755, 10, 10)?;
    run_full(&rt, rt.alloc(), &mut tree)
}

/// The tree of a root that has given out all inode numbers but the last.
fn tree_of_last_number(alloc: Global) -> Result<Tree, AllocError> {
    let root = Node {
        ino: 1,
        parent: 1,
        name: Name::empty(),
        kind: Kind::Directory,
        mode: 0o755,
        uid: 10,
        gid: 10,
        rec: 0,
    };
    let nodes = vec![in alloc; root]?;
    Ok(Tree::new(alloc, nodes, 4_294_967_295)?)
}

#[test]
fn last_inode_number(rt: HostRuntime) -> Result<(), Fail> {
    let mut tree = tree_of_last_number(rt.alloc())?;
    run(&rt, rt.alloc(), &mut tree, CALLS_WITHOUT_NUMBER)?;
    assert_eq!(rt; tree.next(), 4_294_967_296);
    Ok(())
}

/// Makes a file in two halves and takes it back. Tells whether its path led to it in between.
fn is_there_until_taken_back(
    tree: &mut Tree,
    credential: Credential,
    path: &Path,
) -> Result<bool, TreeRefusal> {
    let rec = free_record(tree);
    let node = tree.node_to_make(Kind::File, credential, path, 0o644, rec)?;
    if tree.insert(&node).is_err() {
        return Err(TreeRefusal::NoMemory);
    }
    let is_there = tree.lookup(credential, path) == Ok(node);
    tree.take_back(&node);
    Ok(is_there)
}

fn run_taken_back(rt: &impl Abort, alloc: Global, tree: &mut Tree) -> Result<(), Fail> {
    let path = Path::parse(alloc, b"/a".as_slice())?;
    let credential = Credential { uid: 10, gid: 10 };
    assert!(rt; is_there_until_taken_back(tree, credential, &path)?);
    assert_eq!(rt; tree.next(), 2);
    run(rt, alloc, tree, "10 lookup 0 /a ENOENT")
}

#[test]
fn file_taken_back(rt: HostRuntime) -> Result<(), Fail> {
    let mut tree = Tree::with_root(rt.alloc(), 0o755, 10, 10)?;
    run_taken_back(&rt, rt.alloc(), &mut tree)
}

/// Calls in order on a tree of user 10 that rename: a line has a user, the two paths, and what it
/// answers, which is the inode number of the node, and behind a slash that of the node it replaces.
const RENAMES: &str = "\
10 /./a /b EINVAL
10 /a /.. EINVAL
10 / /b EINVAL
10 /a / EINVAL
10 /aaaaaaaaaaaaaaaaaaaaaaaaaaaaaaaaaaaaaaaaa / EINVAL
10 /none /a/b/c/d/e/f/g/h/i/j/k/l/m/n/o/p/q ENAMETOOLONG
10 /none /none/f ENOENT
10 /d/f /none/f ENOENT
10 /d/f /d/f/g ENOTDIR
20 /p/f /q EACCES
20 /d/f /p/f EACCES
20 /d/f /d/f 3
20 /d /d 2
20 /d /d/e/d EINVAL
20 /d /d/f EINVAL
20 /d /g ENOTDIR
20 /g /d EISDIR
20 /t/t /d EACCES
20 /g /t/g EACCES
20 /t/g /g EACCES
10 /e /d ENOTEMPTY
10 /t /l/l/l/l/l/l/l/l/l/l/l/l/l/l/t ENAMETOOLONG
10 /t/t /l/l/l/l/l/l/l/l/l/l/l/l/l/l/t 9
10 /d/f /g 3/6
10 /g /d/e/f 3
10 /d/e /h 4
10 /h/f /d/f 3
10 /h /e 4/8
10 /d /e/d 2
10 /e/d/f /f 3
10 /f /f 3
";

/// The directories and files that stand before, in the order of their inode numbers from 2 on.
const BEFORE_RENAMES: &str = "\
10 mkdir 777 /d 2
10 create 644 /d/f 3
10 mkdir 777 /d/e 4
10 mkdir 700 /p 5
10 create 644 /g 6
10 mkdir 755 /t 7
10 mkdir 755 /e 8
10 mkdir 755 /t/t 9
10 create 644 /t/g 10
10 mkdir 755 /l 11
10 mkdir 755 /l/l 12
10 mkdir 755 /l/l/l 13
10 mkdir 755 /l/l/l/l 14
10 mkdir 755 /l/l/l/l/l 15
10 mkdir 755 /l/l/l/l/l/l 16
10 mkdir 755 /l/l/l/l/l/l/l 17
10 mkdir 755 /l/l/l/l/l/l/l/l 18
10 mkdir 755 /l/l/l/l/l/l/l/l/l 19
10 mkdir 755 /l/l/l/l/l/l/l/l/l/l 20
10 mkdir 755 /l/l/l/l/l/l/l/l/l/l/l 21
10 mkdir 755 /l/l/l/l/l/l/l/l/l/l/l/l 22
10 mkdir 755 /l/l/l/l/l/l/l/l/l/l/l/l/l 23
10 mkdir 755 /l/l/l/l/l/l/l/l/l/l/l/l/l/l 24
10 mkdir 755 /t/t/t 25
";

/// Where the nodes stand after the renames.
const AFTER_RENAMES: &str = "\
10 lookup 0 /f 3
10 lookup 0 /e/d 2
10 lookup 0 /e 4
10 lookup 0 /d ENOENT
10 lookup 0 /g ENOENT
10 lookup 0 /h ENOENT
10 rmdir 0 /e/d 2
10 create 644 /d 26
";

/// Renames, and gives what a line of `RENAMES` answers.
fn renamed(
    alloc: Global,
    tree: &mut Tree,
    credential: Credential,
    from: &Path,
    to: &Path,
) -> Result<String, AllocError> {
    let moved = match tree.rename(credential, from, to) {
        Ok(moved) => moved,
        Err(refusal) => return format!(in alloc; "{refusal}"),
    };
    let ino = moved.node.ino;
    let Some(other) = moved.replaced else {
        return format!(in alloc; "{ino}");
    };
    let replaced = other.ino;
    format!(in alloc; "{ino}/{replaced}")
}

/// Makes the rename of a line, and compares its answer.
fn run_rename(rt: &impl Abort, alloc: Global, tree: &mut Tree, line: &str) -> Result<(), Fail> {
    let mut words = line.split_whitespace();
    let user = words.next().ok_or("user")?.parse::<u32>()?;
    let from = Path::parse(alloc, words.next().ok_or("path")?.as_bytes())?;
    let to = Path::parse(alloc, words.next().ok_or("path")?.as_bytes())?;
    let want = words.next().ok_or("answer")?;
    let credential = Credential {
        uid: user,
        gid: user,
    };
    let given = renamed(alloc, tree, credential, &from, &to)?;
    assert_eq!(rt; given.as_str(), want, "{line}");
    Ok(())
}

/// Makes the calls before, the renames and the calls after.
fn run_renames(rt: &impl Abort, alloc: Global, tree: &mut Tree) -> Result<(), Fail> {
    run(rt, alloc, tree, BEFORE_RENAMES)?;
    for line in RENAMES.lines() {
        run_rename(rt, alloc, tree, line)?;
    }
    run(rt, alloc, tree, AFTER_RENAMES)
}

#[test]
fn renames_in_order(rt: HostRuntime) -> Result<(), Fail> {
    let mut tree = Tree::with_root(rt.alloc(), 0o777, 10, 10)?;
    run_renames(&rt, rt.alloc(), &mut tree)
}

/// Renames in two halves, and gives the words of the change. None where it is refused, where the
/// old path leads nowhere in between, or the new one elsewhere than to the node afterwards.
fn moved_in_halves(
    tree: &mut Tree,
    credential: Credential,
    from: &Path,
    to: &Path,
) -> Option<[u64; CHANGE_WORDS]> {
    let moved = tree.node_to_move(credential, from, to).ok()?;
    if tree.lookup(credential, from).is_err() {
        return None;
    }
    tree.move_node(&moved);
    if tree.lookup(credential, to) != Ok(moved.node) {
        return None;
    }
    Some(moved.change().words())
}

/// Renames `/a` to `/b` in two halves.
fn a_moved_to_b(alloc: Global, tree: &mut Tree) -> Result<[u64; CHANGE_WORDS], Fail> {
    let from = Path::parse(alloc, b"/a".as_slice())?;
    let to = Path::parse(alloc, b"/b".as_slice())?;
    let credential = Credential { uid: 10, gid: 10 };
    let words = moved_in_halves(tree, credential, &from, &to);
    Ok(words.ok_or("refused, or lost")?)
}

// The change tells the operation, the record, the node as it stands at `/b`, and the replaced
// record plus 1.
fn run_halves(rt: &impl Abort, alloc: Global, tree: &mut Tree) -> Result<(), Fail> {
    run(rt, alloc, tree, "10 create 644 /a 2\n10 create 644 /b 3")?;
    assert_eq!(rt;
        a_moved_to_b(alloc, tree)?,
        [3, 1, 2, 1, 1, 0o644, 10, 10, 1, 0x62, 0, 0, 0, 0, 3]
    );
    run(rt, alloc, tree, "10 lookup 0 /b 2\n10 lookup 0 /a ENOENT")
}

#[test]
fn rename_in_halves(rt: HostRuntime) -> Result<(), Fail> {
    let mut tree = Tree::with_root(rt.alloc(), 0o755, 10, 10)?;
    run_halves(&rt, rt.alloc(), &mut tree)
}

/// Texts of paths, a line each.
const PATHS: &str = "\
/
/a
/a/b.c/d_e/f-g/0
/./..
/a/b/c/d/e/f/g/h/i/j/k/l/m/n/o/p/q
/aaaaaaaaaaaaaaaaaaaaaaaaaaaaaaaaaaaaaaaaa
";

/// Texts that are no paths, a line each; the first is empty.
const NO_PATHS: &str = "\

a
a/b
//
/a/
/a//b
/a b
/a\u{e9}
";

fn is_path(alloc: Global, text: &str) -> bool {
    Path::parse(alloc, text.as_bytes()).is_ok()
}

/// A text, so many times in a row.
fn repeated(alloc: Global, text: &str, times: u32) -> Result<String, AllocError> {
    let mut all = String::new(alloc);
    for _ in 0..times {
        all.push_str(text)?;
    }
    Ok(all)
}

#[test]
fn texts_of_paths(rt: HostRuntime) -> Result<(), Fail> {
    for text in PATHS.lines() {
        assert!(rt; is_path(rt.alloc(), text), "{text}");
    }
    for text in NO_PATHS.lines() {
        assert!(rt; !is_path(rt.alloc(), text), "{text}");
    }
    let most = repeated(rt.alloc(), "/a", 64)?;
    assert!(rt; is_path(rt.alloc(), most.as_str()));
    let too_many = repeated(rt.alloc(), "/a", 65)?;
    assert!(rt; !is_path(rt.alloc(), too_many.as_str()));
    let name = repeated(rt.alloc(), "a", 200)?;
    let longest = format!(in rt.alloc(); "/{name}")?;
    assert!(rt; is_path(rt.alloc(), longest.as_str()));
    let too_long = format!(in rt.alloc(); "/{name}a")?;
    assert!(rt; !is_path(rt.alloc(), too_long.as_str()));
    Ok(())
}

/// Names of nodes, a line each.
const NAMES: &str = "\
a
Zz09._-
aaaaaaaaaaaaaaaaaaaaaaaaaaaaaaaaaaaaaaaa
";

/// Texts that are no names of nodes, a line each; the first is empty.
const NO_NAMES: &str = "\

aaaaaaaaaaaaaaaaaaaaaaaaaaaaaaaaaaaaaaaaa
a/b
a b
";

#[test]
fn names_of_nodes(rt: HostRuntime) -> Result<(), Fail> {
    for text in NAMES.lines() {
        let name = Name::parse(text.as_bytes()).ok_or("no name")?;
        assert!(rt; name.as_bytes() == text.as_bytes(), "{text}");
    }
    for text in NO_NAMES.lines() {
        assert!(rt; Name::parse(text.as_bytes()).is_none(), "{text}");
    }
    Ok(())
}

// The words of the names were worked by hand: `ab` is 0x6261, and nine `z` are one word and a byte.
#[test]
fn a_change_has_its_words(rt: HostRuntime) -> Result<(), Fail> {
    let mut node = Node {
        ino: 7,
        parent: 3,
        name: Name::parse(b"ab").ok_or("no name")?,
        kind: Kind::File,
        mode: 0o640,
        uid: 10,
        gid: 20,
        rec: 5,
    };
    assert_eq!(rt;
        node_words(&node),
        [7, 3, 1, 416, 10, 20, 2, 0x6261, 0, 0, 0, 0]
    );
    node.name = Name::parse(b"zzzzzzzzz").ok_or("no name")?;
    node.kind = Kind::Directory;
    let full = 0x7a7a_7a7a_7a7a_7a7a;
    assert_eq!(rt;
        node_words(&node),
        [7, 3, 2, 416, 10, 20, 9, full, 0x7a, 0, 0, 0]
    );
    let replaced = Some(255);
    for (change, words) in [
        (
            Change::Create(node),
            [1, 5, 7, 3, 2, 416, 10, 20, 9, full, 0x7a, 0, 0, 0, 0],
        ),
        (
            Change::Remove { rec: 5, ino: 7 },
            [2, 5, 7, 0, 0, 0, 0, 0, 0, 0, 0, 0, 0, 0, 0],
        ),
        (
            Change::Move {
                node,
                replaced: None,
            },
            [3, 5, 7, 3, 2, 416, 10, 20, 9, full, 0x7a, 0, 0, 0, 0],
        ),
        (
            Change::Move { node, replaced },
            [3, 5, 7, 3, 2, 416, 10, 20, 9, full, 0x7a, 0, 0, 0, 256],
        ),
    ] {
        assert_eq!(rt; change.words(), words);
    }
    nodes_are_told();
    changes_are_told();
    tables_are_told();
    Ok(())
}

#[test]
fn posix_names_are_printed(rt: HostRuntime) -> Result<(), Fail> {
    for (error, name) in [
        (Posix::PermissionDenied, "EACCES"),
        (Posix::NotFound, "ENOENT"),
        (Posix::AlreadyExists, "EEXIST"),
        (Posix::NotADirectory, "ENOTDIR"),
        (Posix::IsADirectory, "EISDIR"),
        (Posix::DirectoryNotEmpty, "ENOTEMPTY"),
        (Posix::InvalidArgument, "EINVAL"),
        (Posix::NameTooLong, "ENAMETOOLONG"),
        (Posix::TooManyOpenFiles, "EMFILE"),
        (Posix::TooManyFiles, "ENFILE"),
        (Posix::BadDescriptor, "EBADF"),
        (Posix::FileTooLarge, "EFBIG"),
    ] {
        let text = format!(in rt.alloc(); "{error}")?;
        assert_eq!(rt; text.as_str(), name);
    }
    Ok(())
}

#[test]
fn bounds(rt: HostRuntime) {
    assert_eq!(rt; (CHANGE_WORDS, NODE_WORDS), (15, 12));
    assert_eq!(rt; (RECORDS, DEEPEST), (256, 16));
    assert_eq!(rt;
        (LONGEST_NAME, LONGEST_COMPONENT, MOST_NAMES),
        (40, 200, 64)
    );
    assert_eq!(rt; INODE_END, 4_294_967_296);
}
