ghost use Rattle.std.specs.Prelude.{◌≤◌};

use cfs_cred::Credential;
use cfs_dir::Path;
use cfs_fresh::ns_state;
use cfs_kernel::{NsRefusal, NsState};
use cfs_pmem::{MemRegion, Meter};
use cfs_queue::Queue;
use cfs_words::Flags;
use std::alloc::Global;
use std::process::Abort;
use std::string::String;
use std::test::Fail;

/// A store, and the queues that its callers have.
#[derive(Drop)]
struct Bench {
    alloc: Global,
    state: NsState<MemRegion>,
    meter: Meter,
    out: Vec<Queue<MemRegion>>,
}

/// A store of so many queues, at most 64, whose root is user 10's.
fn begun(alloc: Global, queues: u32) -> Result<Bench, Fail> {
    Ok(Bench {
        alloc,
        state: ns_state(alloc, queues.min(64))?,
        meter: Meter::calm(alloc),
        out: Vec::new(alloc),
    })
}

/// A user, whose group has the same number, but 10 for user 11.
fn user(uid: u32) -> Credential {
    let gid = if uid == 11 { 10 } else { uid };
    Credential { uid, gid }
}

/// The flags of letters.
fn flags_of(letters: &str) -> Flags {
    Flags {
        read: letters.contains('r'),
        write: letters.contains('w'),
        create: letters.contains('c'),
        exclusive: letters.contains('x'),
        append: false,
    }
}

/// The permission bits of three octal digits.
fn mode_of(digits: &str) -> u16
    ensures { result ≤ 511 }
{
    u16::from_str_radix(digits, 8).unwrap_or(0).min(511)
}

fn refused(alloc: Global, refusal: NsRefusal) -> Result<String, Fail> {
    Ok(format!(in alloc; "{refusal}")?)
}

/// What a request that gives its place answers.
fn placed(alloc: Global, answer: Result<u64, NsRefusal>) -> Result<String, Fail> {
    match answer {
        Ok(place) => Ok(format!(in alloc; "at {place}")?),
        Err(refusal) => refused(alloc, refusal),
    }
}

/// The inode number of the node at a record; 0 without a node.
fn ino_at(state: &NsState<MemRegion>, rec: u32) -> u64 {
    match state.tree().node(rec) {
        Some(node) => node.ino,
        None => 0,
    }
}

/// The removed file that a pass is given.
fn dying(state: &mut NsState<MemRegion>, by: u64) -> Option<(u32, u64)> {
    state.dying(by)
}

/// Takes a removed file back; whether there is one at the record.
fn keep(state: &mut NsState<MemRegion>, rec: u32) -> bool {
    if state.removed().get(rec).is_none() {
        return false;
    }
    state.kept(rec);
    true
}

/// Frees the record of a removed file; whether there is one.
fn free(state: &mut NsState<MemRegion>, rec: u32) -> bool {
    if state.removed().get(rec).is_none() {
        return false;
    }
    state.freed(rec);
    true
}

fn told(alloc: Global, done: bool) -> Result<String, Fail> {
    let word = if done { "done" } else { "none" };
    Ok(format!(in alloc; "{word}")?)
}

fn told_dying(alloc: Global, given: Option<(u32, u64)>) -> Result<String, Fail> {
    match given {
        Some((rec, ino)) => Ok(format!(in alloc; "rec {rec} ino {ino}")?),
        None => Ok(format!(in alloc; "none")?),
    }
}

impl Bench {
    fn path(&self, path: &str) -> Result<Path, Fail> {
        Ok(Path::parse(self.alloc, path.as_bytes())?)
    }

    fn open(&mut self, uid: u32, letters: &str, mode: &str, path: &str) -> Result<String, Fail> {
        let path = self.path(path)?;
        let flags = flags_of(letters);
        let caller = u64::from(uid);
        let meter = &mut self.meter;
        match self
            .state
            .open_path(meter, user(uid), caller, &path, flags, mode_of(mode))
        {
            Ok(opened) => {
                let grant = opened.grant;
                self.out.push(opened.queue)?;
                let (place, rec) = (opened.place, opened.rec);
                let told = format!(in self.alloc;
                    "at {place} grant {} ino {} rec {rec} queue {}",
                    grant.number, grant.ino, grant.queue
                )?;
                Ok(told)
            }
            Err(refusal) => refused(self.alloc, refusal),
        }
    }

    fn make_dir(&mut self, uid: u32, mode: &str, path: &str) -> Result<String, Fail> {
        let path = self.path(path)?;
        match self
            .state
            .make_dir(&mut self.meter, user(uid), &path, mode_of(mode))
        {
            Ok(made) => Ok(format!(in self.alloc; "at {} ino {}", made.place, made.ino)?),
            Err(refusal) => refused(self.alloc, refusal),
        }
    }

    fn rename(&mut self, uid: u32, from: &str, to: &str) -> Result<String, Fail> {
        let from = self.path(from)?;
        let to = self.path(to)?;
        let answer = self.state.rename(&mut self.meter, user(uid), &from, &to);
        placed(self.alloc, answer)
    }

    fn remove(&mut self, uid: u32, request: &str, path: &str) -> Result<String, Fail> {
        let path = self.path(path)?;
        let answer = match request {
            "unlink" => self.state.unlink(&mut self.meter, user(uid), &path),
            _ => self.state.remove_dir(&mut self.meter, user(uid), &path),
        };
        placed(self.alloc, answer)
    }

    /// Closes the grant of the queue that was given last.
    fn close(&mut self) -> Result<String, Fail> {
        let queue = self.out.pop().ok_or("no queue is out")?;
        if !queue.is_whole() {
            return Err(Fail::from("a slot of the queue is out"));
        }
        if self.state.grants().get(queue.number()).is_none() {
            return Err(Fail::from("the queue has no grant"));
        }
        match self.state.close_grant(queue) {
            Ok(place) => Ok(format!(in self.alloc; "at {place}")?),
            Err(_) => Ok(format!(in self.alloc; "out of memory")?),
        }
    }

    /// What is told of a record, or of the removed file that a pass is given.
    fn look(&mut self, request: &str, number: u32) -> Result<String, Fail> {
        match request {
            "dying" => told_dying(self.alloc, dying(&mut self.state, u64::from(number))),
            "kept" => told(self.alloc, keep(&mut self.state, number)),
            "freed" => told(self.alloc, free(&mut self.state, number)),
            _ => Ok(format!(in self.alloc; "ino {}", ino_at(&self.state, number))?),
        }
    }

    /// What a request of a user answers; `open:FLAGS:MODE`, `mkdir:MODE`, `rename:FROM`.
    fn answer(&mut self, uid: u32, request: &str, path: &str) -> Result<String, Fail> {
        let mut words = request.splitn(3, ':');
        let name = words.next().ok_or("name")?;
        let first = words.next().unwrap_or("");
        let second = words.next().unwrap_or("640");
        match name {
            "open" => self.open(uid, first, second, path),
            "mkdir" => self.make_dir(uid, first, path),
            "rename" => self.rename(uid, first, path),
            "close" => self.close(),
            "dying" | "kept" | "freed" | "node" => self.look(name, path.parse::<u32>()?),
            _ => self.remove(uid, name, path),
        }
    }

    /// Plays lines of a user, a request, its path and what it answers.
    fn play(&mut self, rt: &impl Abort, lines: &str) -> Result<(), Fail> {
        for line in lines.lines() {
            let mut words = line.splitn(4, ' ');
            let uid = words.next().ok_or("user")?.parse::<u32>()?;
            let request = words.next().ok_or("request")?;
            let path = words.next().ok_or("path")?;
            let want = words.next().ok_or("answer")?;
            let given = self.answer(uid, request, path)?;
            assert_eq!(rt; given.as_str(), want, "{line}");
        }
        Ok(())
    }
}

/// Users 10 and 11 of group 10, and user 12.
const RIGHTS: &str = "\
10 open:rwc:640 /f at 1 grant 1 ino 2 rec 1 queue 0
11 open:r /f at 2 grant 2 ino 2 rec 1 queue 1
11 open:w /f EACCES after 2 requests
12 open:r /f EACCES after 2 requests
10 open:wc:007 /g at 3 grant 3 ino 3 rec 2 queue 2
10 open:r /g EACCES after 3 requests
11 open:r /g EACCES after 3 requests
12 open:rw /g at 4 grant 4 ino 3 rec 2 queue 3
0 open:rw /g at 5 grant 5 ino 3 rec 2 queue 4
12 open:rc /n EACCES after 5 requests
12 mkdir:755 /n EACCES after 5 requests
12 unlink /f EACCES after 5 requests
10 mkdir:700 /d at 6 ino 4
12 open:r /d/x EACCES after 6 requests
12 mkdir:755 /d/x EACCES after 6 requests
12 rename:/f /d/x EACCES after 6 requests
10 close - at 7
10 open:r /f at 8 grant 6 ino 2 rec 1 queue 4
";

#[test]
fn rights_are_asked_once(rt: HostRuntime) -> Result<(), Fail> {
    begun(rt.alloc(), 64)?.play(&rt, RIGHTS)
}

const MOVES: &str = "\
10 open:rwc /f at 1 grant 1 ino 2 rec 1 queue 0
10 rename:/f /aaaaaaaaaaaaaaaaaaaaaaaaaaaaaaaaaaaaaaaaa ENAMETOOLONG
10 rename:/f /n/x ENOENT after 1 requests
10 rename:/f /f/x ENOTDIR after 1 requests
10 rename:/f/x /g ENOTDIR after 1 requests
10 mkdir:750 /d at 2 ino 3
12 rename:/d/x /g EACCES after 2 requests
10 mkdir:777 /e at 3 ino 4
12 open:rwc /e/g at 4 grant 2 ino 5 rec 4 queue 1
12 rename:/e/g /g EACCES after 4 requests
12 rename:/e/g /e/h at 5
12 rename:/e/h /e EISDIR after 5 requests
";

const REFUSALS: &str = "\
10 mkdir:755 /d at 1 ino 2
10 mkdir:755 /d/e at 2 ino 3
10 open:rwc /f at 3 grant 1 ino 4 rec 3 queue 0
10 mkdir:755 /.. EINVAL
10 mkdir:755 /aaaaaaaaaaaaaaaaaaaaaaaaaaaaaaaaaaaaaaaaa ENAMETOOLONG
10 mkdir:755 /n/x ENOENT after 3 requests
10 mkdir:755 /f/x ENOTDIR after 3 requests
10 mkdir:755 /d EEXIST after 3 requests
10 mkdir:755 / EEXIST after 3 requests
10 open:rx /f EINVAL
10 open:r /n ENOENT after 3 requests
10 open:rcx /f EEXIST after 3 requests
10 open:r /d EISDIR after 3 requests
10 unlink /n ENOENT after 3 requests
10 unlink /d EISDIR after 3 requests
10 rmdir / EINVAL
10 rmdir /n ENOENT after 3 requests
10 rmdir /f ENOTDIR after 3 requests
10 rmdir /d ENOTEMPTY after 3 requests
10 rename:/f / EINVAL
10 rename:/n /x ENOENT after 3 requests
10 rename:/d /d/e/x EINVAL after 3 requests
10 rename:/d /f ENOTDIR after 3 requests
10 rename:/f /d EISDIR after 3 requests
12 rename:/f /x EACCES after 3 requests
10 mkdir:755 /o at 4 ino 5
10 rename:/o /d ENOTEMPTY after 4 requests
10 rename:/f /f at 5
10 rename:/f /g at 6
10 rename:/o /d/e at 7
10 mkdir:755 /p at 8 ino 6
10 rmdir /d/e at 9
10 rmdir /d at 10
";

#[test]
fn refusals_take_no_place(rt: HostRuntime) -> Result<(), Fail> {
    begun(rt.alloc(), 64)?.play(&rt, REFUSALS)?;
    begun(rt.alloc(), 64)?.play(&rt, MOVES)
}

const ONE_QUEUE: &str = "\
10 open:rwc /f at 1 grant 1 ino 2 rec 1 queue 0
10 open:r /f all 1 queues are out
10 open:r /n ENOENT after 1 requests
10 open:rc /n all 1 queues are out
10 close - at 2
10 open:rc /n at 3 grant 2 ino 3 rec 2 queue 0
";

#[test]
fn one_queue_is_given_once(rt: HostRuntime) -> Result<(), Fail> {
    begun(rt.alloc(), 1)?.play(&rt, ONE_QUEUE)?;
    begun(rt.alloc(), 0)?.play(&rt, "10 open:rc /f all 0 queues are out\n")
}

const FULL: &str = "\
10 mkdir:755 /x all 256 records are used
10 open:rc /x all 256 records are used
10 mkdir:755 /n7 EEXIST after 255 requests
10 rmdir /n7 at 256
10 mkdir:755 /x at 257 ino 257
0 node 7 ino 257
10 mkdir:755 /y all 256 records are used
";

/// Makes a directory in each record but the root's.
fn filled(alloc: Global) -> Result<Bench, Fail> {
    let mut bench = begun(alloc, 2)?;
    for number in 1..256u64 {
        let path = format!(in alloc; "/n{number}")?;
        bench.make_dir(10, "755", path.as_str())?;
    }
    Ok(bench)
}

#[test]
fn two_hundred_and_fifty_six_records(rt: HostRuntime) -> Result<(), Fail> {
    filled(rt.alloc())?.play(&rt, FULL)
}

/// A removed file keeps its record while a grant is for it, and until it is purged.
const REMOVED: &str = "\
10 open:rwc /f at 1 grant 1 ino 2 rec 1 queue 0
10 unlink /f at 2
10 mkdir:755 /d at 3 ino 3
0 dying 9 none
0 node 2 ino 3
10 close - at 4
0 dying 9 rec 1 ino 2
0 dying 8 none
0 kept 1 done
0 dying 8 rec 1 ino 2
10 mkdir:755 /e at 5 ino 4
0 node 3 ino 4
0 freed 1 done
0 freed 1 none
10 mkdir:755 /g at 6 ino 5
0 node 1 ino 5
";

/// A file that a rename replaces is a removed file, and a directory is none.
const REPLACED: &str = "\
10 open:rwc /f at 1 grant 1 ino 2 rec 1 queue 0
10 open:rwc /g at 2 grant 2 ino 3 rec 2 queue 1
10 rename:/f /g at 3
10 mkdir:755 /d at 4 ino 4
10 mkdir:755 /e at 5 ino 5
10 rename:/d /e at 6
10 mkdir:755 /h at 7 ino 6
0 node 4 ino 6
0 dying 1 none
10 close - at 8
0 dying 1 rec 2 ino 3
0 dying 1 none
";

#[test]
fn removed_files_keep_their_records(rt: HostRuntime) -> Result<(), Fail> {
    begun(rt.alloc(), 4)?.play(&rt, REMOVED)?;
    begun(rt.alloc(), 4)?.play(&rt, REPLACED)
}

/// A request that stops at a step takes no place, and what it would have made is none.
#[test]
fn failed_requests_take_no_place(rt: HostRuntime) -> Result<(), Fail> {
    for step in 1..19 {
        for request in [
            "open:rc /n",
            "mkdir:755 /n",
            "unlink /f",
            "rmdir /d",
            "rename:/f /g",
        ] {
            let mut bench = begun(rt.alloc(), 3)?;
            bench.play(
                &rt,
                "\
10 open:rwc /f at 1 grant 1 ino 2 rec 1 queue 0
10 mkdir:755 /d at 2 ino 3
10 open:rwc /g at 3 grant 2 ino 4 rec 3 queue 1
",
            )?;
            bench.meter.stop(step);
            let line = format!(in rt.alloc(); "10 {request} device fault\n")?;
            bench.play(&rt, line.as_str())?;
            bench.meter.revive();
            bench.play(
                &rt,
                "\
10 open:r /n ENOENT after 3 requests
10 open:r /f at 4 grant 3 ino 2 rec 1 queue 2
10 mkdir:755 /d/e at 5 ino 5
10 rename:/f /g at 6
",
            )?;
        }
    }
    Ok(())
}

/// The word at the front of a region; 0 without a region.
fn first_word(region: Option<&MemRegion>) -> u64 {
    match region {
        Some(region) => region.words().first().copied().unwrap_or(0),
        None => 0,
    }
}

/// Makes seventy directories; how many of the answers are as wanted.
fn make_seventy(bench: &mut Bench) -> Result<u64, Fail> {
    let alloc = bench.alloc;
    let mut right = 0u64;
    for number in 0..70u64 {
        let path = format!(in alloc; "/n{number}")?;
        let told = bench.make_dir(10, "755", path.as_str())?;
        let want = format!(in alloc; "at {} ino {}", number + 1, number + 2)?;
        if told == want {
            right = right.saturating_add(1);
        }
    }
    Ok(right)
}

/// The selector's word, and the gates of the first seven records of the journal.
fn words_left(state: NsState<MemRegion>) -> [u64; 8] {
    let (stored, _home) = state.into_parts();
    let (_tree, journal, checkpoint) = stored.into_parts();
    let (selector, _tables) = checkpoint.into_parts();
    let records = journal.into_parts();
    let gate = |place: usize| first_word(records.get(place));
    [
        first_word(Some(&selector)),
        gate(0),
        gate(1),
        gate(2),
        gate(3),
        gate(4),
        gate(5),
        gate(6),
    ]
}

/// Of seventy changes the first 64 are in a checkpoint, in the second copy of the table.
#[test]
fn seventy_directories(rt: HostRuntime) -> Result<(), Fail> {
    let mut bench = begun(rt.alloc(), 1)?;
    assert_eq!(rt; make_seventy(&mut bench)?, 70);
    assert_eq!(rt; words_left(bench.state), [129, 65, 66, 67, 68, 69, 70, 7]);
    Ok(())
}
