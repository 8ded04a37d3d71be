ghost use Rattle.std.specs.Prelude.{◌≡◌, ◌<◌, None};
ghost use Rattle.std.specs.Option.{ForSome};
ghost use Rattle.cfs_dir.specs.Namespace.{node_at};

use cfs_cred::Credential;
use cfs_dir::{Path, Posix, Tree};
use cfs_requests::{
    NameRefusal, Opening, look_to_make, look_to_move, look_to_open, look_to_remove, look_to_unlink,
};
use cfs_words::Flags;
use std::alloc::Global;
use std::process::Abort;
use std::string::String;
use std::test::Fail;

/// Looks at a tree of user 10 with `/f` (mode 640), `/g` (mode 007) and `/d` (mode 700). A line has
/// a user, whose group has the same number, but 10 for user 11, a request, its path, and what it
/// answers: an inode number, for an open behind the word `found` or `made`, or a refusal, of the
/// words behind `words`.
const LOOKS: &str = "\
10 r /f found 2
11 r /f found 2
11 w /f EACCES
12 r /f EACCES
10 r /g EACCES
11 r /g EACCES
12 rw /g found 3
0 rw /g found 3
12 rx /f words EINVAL
12 r /./f words EINVAL
12 r /aaaaaaaaaaaaaaaaaaaaaaaaaaaaaaaaaaaaaaaaa words ENAMETOOLONG
12 r /d/x EACCES
10 r /f/x ENOTDIR
10 r /n/x ENOENT
10 r /n ENOENT
12 rc /n EACCES
0 rc /n made 5
0 rcx /f EEXIST
0 rc /f found 2
11 wc /f EACCES
0 rc /n/x ENOENT
0 r / EISDIR
0 rc /d EISDIR
0 rcx / EEXIST
0 mkdir /n 5
0 mkdir /d EEXIST
0 mkdir / EEXIST
12 mkdir /n EACCES
0 mkdir /.. words EINVAL
0 unlink /f 2
0 unlink /d EISDIR
0 unlink /n ENOENT
12 unlink /f EACCES
0 unlink /a/./f words EINVAL
0 rmdir /d 4
0 rmdir /f ENOTDIR
0 rmdir / words EINVAL
12 rmdir /d EACCES
0 rename:/d /f ENOTDIR
0 rename:/f /d EISDIR
0 rename:/f /n 2
0 rename:/f / words EINVAL
0 rename:/d /d/e EINVAL
0 rename:/n /f ENOENT
";

/// A record that no node has.
fn free_record(tree: &Tree) -> Option<u32>
    ensures { ForSome result (λ rec. (rec < 256) × (node_at tree.now.nodes rec ≡ None)) }
{
    for rec in 0..256 {
        if tree.node(rec).is_none() {
            return Some(rec);
        }
    }
    None
}

/// The answer of an open as a line has it.
fn told_opening(alloc: Global, opening: Opening) -> Result<String, Fail> {
    let (word, node) = match opening {
        Opening::Found(node) => ("found", node),
        Opening::Made(node) => ("made", node),
    };
    Ok(format!(in alloc; "{word} {}", node.ino)?)
}

fn told_refusal(alloc: Global, refusal: NameRefusal) -> Result<String, Fail> {
    let words = match refusal {
        NameRefusal::Words(_) => "words ",
        NameRefusal::Tree(_) => "",
    };
    Ok(format!(in alloc; "{words}{refusal}")?)
}

/// The flags of letters.
fn flags_of(letters: &str) -> Flags {
    Flags {
        read: letters.contains('r'),
        write: letters.contains('w'),
        create: letters.contains('c'),
        exclusive: letters.contains('x'),
        append: false,
    }
}

/// What an open answers.
fn open(
    alloc: Global,
    tree: &Tree,
    user: Credential,
    path: &Path,
    letters: &str,
) -> Result<String, Fail> {
    let rec = free_record(tree);
    match look_to_open(tree, user, path, flags_of(letters), 0o640, rec) {
        Ok(opening) => told_opening(alloc, opening),
        Err(refusal) => told_refusal(alloc, refusal),
    }
}

/// The inode number of what any other request finds.
fn found(
    tree: &Tree,
    user: Credential,
    path: &Path,
    from: Option<&Path>,
    request: &str,
) -> Result<u64, NameRefusal> {
    if let Some(from) = from {
        return Ok(look_to_move(tree, user, from, path)?.node.ino);
    }
    let node = match request {
        "mkdir" => look_to_make(tree, user, path, 0o750, free_record(tree))?,
        "unlink" => look_to_unlink(tree, user, path)?,
        _ => look_to_remove(tree, user, path)?,
    };
    Ok(node.ino)
}

/// What any other request answers.
fn look(
    alloc: Global,
    tree: &Tree,
    user: Credential,
    path: &Path,
    request: &str,
) -> Result<String, Fail> {
    let from = match request.strip_prefix("rename:") {
        Some(from) => Some(Path::parse(alloc, from.as_bytes())?),
        None => None,
    };
    match found(tree, user, path, from.as_ref(), request) {
        Ok(ino) => Ok(format!(in alloc; "{ino}")?),
        Err(refusal) => told_refusal(alloc, refusal),
    }
}

fn run_line(rt: &impl Abort, alloc: Global, tree: &Tree, line: &str) -> Result<(), Fail> {
    let mut words = line.splitn(4, ' ');
    let uid = words.next().ok_or("user")?.parse::<u32>()?;
    let request = words.next().ok_or("request")?;
    let path = Path::parse(alloc, words.next().ok_or("path")?.as_bytes())?;
    let want = words.next().ok_or("answer")?;
    let gid = if uid == 11 { 10 } else { uid };
    let user = Credential { uid, gid };
    let given = match request {
        "r" | "w" | "rw" | "rc" | "wc" | "rx" | "rcx" => open(alloc, tree, user, &path, request)?,
        _ => look(alloc, tree, user, &path, request)?,
    };
    assert_eq!(rt; given.as_str(), want, "{line}");
    Ok(())
}

/// The tree that the lines look at.
fn tree_of_three(alloc: Global) -> Result<Tree, Fail> {
    let owner = Credential { uid: 10, gid: 10 };
    let mut tree = Tree::with_root(alloc, 0o755, 10, 10)?;
    let file = Path::parse(alloc, b"/f".as_slice())?;
    let rec = free_record(&tree);
    tree.create(owner, &file, 0o640, rec)?;
    let file = Path::parse(alloc, b"/g".as_slice())?;
    let rec = free_record(&tree);
    tree.create(owner, &file, 0o007, rec)?;
    let directory = Path::parse(alloc, b"/d".as_slice())?;
    let rec = free_record(&tree);
    tree.mkdir(owner, &directory, 0o700, rec)?;
    Ok(tree)
}

#[test]
fn refusals_in_order(rt: HostRuntime) -> Result<(), Fail> {
    let tree = tree_of_three(rt.alloc())?;
    for line in LOOKS.lines() {
        run_line(&rt, rt.alloc(), &tree, line)?;
    }
    Ok(())
}

#[test]
fn no_record_is_left(rt: HostRuntime) -> Result<(), Fail> {
    let tree = Tree::with_root(rt.alloc(), 0o755, 0, 0)?;
    let path = Path::parse(rt.alloc(), b"/n".as_slice())?;
    let user = Credential { uid: 0, gid: 0 };
    let opened = look_to_open(&tree, user, &path, flags_of("rc"), 0o640, None);
    assert!(rt; opened == Err(NameRefusal::Tree(Posix::TooManyFiles)));
    let made = look_to_make(&tree, user, &path, 0o750, None);
    assert!(rt; made == Err(NameRefusal::Tree(Posix::TooManyFiles)));
    Ok(())
}
