use cfs_core::{Core, End, Event, Flag, SizeEnd};
use cfs_events::{EventRefusal, image_now, recovered_file, run_events};
use cfs_file::{Bytes, Entry, NoMemory, Request};
use std::alloc::Global;
use std::test::Fail;

/// A move of a table: a verb, two numbers and a text, with blanks between.
#[derive(Clone, Copy)]
struct Move<'a> {
    verb: &'a str,
    first: u64,
    second: u64,
    text: &'a str,
}

fn number(word: Option<&str>) -> u64 {
    match word {
        Some(digits) => digits.parse::<u64>().unwrap_or(0),
        None => 0,
    }
}

fn read_move(text: &str) -> Move<'_> {
    let mut words = text.split(' ');
    let verb = words.next().unwrap_or("");
    let first = number(words.next());
    let second = number(words.next());
    let text = words.next().unwrap_or("");
    Move {
        verb,
        first,
        second,
        text,
    }
}

fn bytes_of(alloc: Global, step: &Move<'_>) -> Result<Bytes, NoMemory> {
    if step.verb == "fill" {
        return counted_bytes(alloc, number(Some(step.text)));
    }
    Bytes::from_slice(alloc, step.text.as_bytes())
}

/// So many bytes, in which no block is like another.
fn counted_bytes(alloc: Global, count: u64) -> Result<Bytes, NoMemory> {
    let mut bytes = Vec::new(alloc);
    for k in 0..count {
        bytes.push((k % 251) as u8)?;
    }
    Ok(Bytes::from_vec(bytes))
}

fn entry(step: &Move<'_>, request: Request) -> Entry {
    Entry {
        ino: 2,
        place: step.first,
        caller: 1,
        line: step.first,
        request,
    }
}

fn request_of(alloc: Global, step: &Move<'_>) -> Result<Request, NoMemory> {
    let bytes = bytes_of(alloc, step)?;
    if step.verb == "cut" {
        return Ok(Request::Truncate {
            length: step.second,
        });
    }
    if step.verb == "append" {
        return Ok(Request::Append { bytes });
    }
    if step.verb == "read" {
        return Ok(Request::Read {
            offset: step.second,
            count: 9,
        });
    }
    if step.verb == "sync" {
        return Ok(Request::Sync);
    }
    Ok(Request::Write {
        offset: step.second,
        bytes,
    })
}

fn admission(alloc: Global, step: &Move<'_>) -> Result<Event, NoMemory> {
    let entry = entry(step, request_of(alloc, step)?);
    if step.verb == "read" || step.verb == "sync" {
        return Ok(Event::AdmitRead { entry });
    }
    Ok(Event::Admit {
        entry,
        grant: 1,
        kept: step.verb != "lose",
    })
}

fn end_of(verb: &str) -> Option<End> {
    if verb == "retire" {
        return Some(End::Retired);
    }
    if verb == "more" {
        return Some(End::More);
    }
    if verb == "back" {
        return Some(back(SizeEnd::AsBefore, Flag::On, false));
    }
    if verb == "size-fails" {
        return Some(back(SizeEnd::Either, Flag::On, false));
    }
    if verb == "gate-fails" {
        return Some(back(SizeEnd::Set, Flag::Unsure, true));
    }
    if verb == "gate-opens" {
        return Some(back(SizeEnd::AsBefore, Flag::On, true));
    }
    if verb == "back-applied" {
        return Some(back(SizeEnd::AsBefore, Flag::Unsure, true));
    }
    None
}

fn back(size: SizeEnd, gate: Flag, applied: bool) -> End {
    End::Back {
        size,
        gate,
        applied,
    }
}

fn block_event(verb: &str, block: u64) -> Option<Event> {
    if verb == "tag" || verb == "tag-fails" {
        let kept = verb == "tag";
        return Some(Event::Tag { block, kept });
    }
    if verb == "trim" || verb == "trim-fails" {
        let kept = verb == "trim";
        return Some(Event::Trim { block, kept });
    }
    None
}

fn place_event(verb: &str, place: u64, by: u64) -> Option<Event> {
    if verb == "mark" || verb == "mark-fails" {
        let kept = verb == "mark";
        return Some(Event::Mark { place, by, kept });
    }
    if verb == "dispatch" {
        return Some(Event::Dispatch { place });
    }
    if verb == "skip" {
        return Some(Event::Skip { place });
    }
    if verb == "drop" {
        let answer = None;
        return Some(Event::Serve { place, answer });
    }
    None
}

fn job_event(alloc: Global, step: &Move<'_>) -> Result<Option<Event>, NoMemory> {
    let place = step.first;
    let block = step.second;
    if step.verb == "write" {
        let left = None;
        return Ok(Some(Event::BlockWrite { place, block, left }));
    }
    if step.verb == "tear" {
        let left = Some(bytes_of(alloc, step)?);
        return Ok(Some(Event::BlockWrite { place, block, left }));
    }
    if step.verb == "flush" || step.verb == "flush-fails" {
        let ok = step.verb == "flush";
        return Ok(Some(Event::Flush { place, block, ok }));
    }
    if step.verb == "serve" {
        let answer = Some(bytes_of(alloc, step)?);
        return Ok(Some(Event::Serve { place, answer }));
    }
    Ok(None)
}

/// A crash that leaves what reads now, but for the size word or the gate in doubt.
fn crash_event(alloc: Global, core: &Core, step: &Move<'_>) -> Result<Option<Event>, NoMemory> {
    let mut image = image_now(alloc, core)?;
    if step.verb == "crash-open" {
        image.doubt = true;
        return Ok(Some(Event::Crash { image }));
    }
    if step.verb == "crash-size" {
        image.size = step.first;
        return Ok(Some(Event::Crash { image }));
    }
    if step.verb == "crash" {
        return Ok(Some(Event::Crash { image }));
    }
    Ok(None)
}

fn event_of(alloc: Global, core: &Core, step: &Move<'_>) -> Result<Event, NoMemory> {
    if step.verb == "mount" {
        return Ok(Event::Mount);
    }
    if step.verb == "settle" {
        return Ok(Event::Settle);
    }
    if let Some(end) = end_of(step.verb) {
        let place = step.first;
        return Ok(Event::Finish { place, end });
    }
    if let Some(event) = block_event(step.verb, step.first) {
        return Ok(event);
    }
    if let Some(event) = place_event(step.verb, step.first, step.second) {
        return Ok(event);
    }
    other_event(alloc, core, step)
}

fn other_event(alloc: Global, core: &Core, step: &Move<'_>) -> Result<Event, NoMemory> {
    if let Some(event) = job_event(alloc, step)? {
        return Ok(event);
    }
    if let Some(event) = crash_event(alloc, core, step)? {
        return Ok(event);
    }
    admission(alloc, step)
}

/// Makes the moves one by one: the core after them, or the number of the first that is refused.
fn play(alloc: Global, moves: &str) -> Result<Result<Core, u64>, NoMemory> {
    play_on(alloc, Core::empty(alloc)?, moves)
}

fn play_on(alloc: Global, core: Core, moves: &str) -> Result<Result<Core, u64>, NoMemory> {
    let mut core = core;
    let mut at: u64 = 0;
    for text in moves.split(';') {
        let event = event_of(alloc, &core, &read_move(text))?;
        core = match run_events(alloc, core, &[event]) {
            Ok(next) => next,
            Err(EventRefusal::Refused { .. }) => return Ok(Err(at)),
            Err(EventRefusal::NoMemory) => return Err(NoMemory),
        };
        at = at.saturating_add(1);
    }
    Ok(Ok(core))
}

#[test]
fn an_empty_core_refuses_a_finish(rt: HostRuntime) -> Result<(), Fail> {
    let alloc = rt.alloc();
    let events = [Event::Finish {
        place: 1,
        end: End::Retired,
    }];
    let refused = run_events(alloc, Core::empty(alloc)?, &events).err();
    assert_eq!(rt; refused, Some(EventRefusal::Refused { at: 0 }));
    let core = run_events(alloc, Core::empty(alloc)?, &[]).ok();
    let core = core.ok_or("refused")?;
    assert!(rt; core.log.len() == 0 && core.tags.len() == 256 && core.size == 0);
    Ok(())
}

#[test]
fn a_list_names_its_first_refusal(rt: HostRuntime) -> Result<(), Fail> {
    let alloc = rt.alloc();
    let events = [
        Event::Tag {
            block: 0,
            kept: true,
        },
        admission(alloc, &read_move("put 1 0 a"))?,
        Event::Skip { place: 1 },
        Event::Settle,
    ];
    let refused = run_events(alloc, Core::empty(alloc)?, &events).err();
    assert_eq!(rt; refused, Some(EventRefusal::Refused { at: 2 }));
    let text = format!(in alloc; "{}", refused.ok_or("made")?)?;
    assert_eq!(rt; text.as_str(), "event 2 may not come");
    Ok(())
}

#[test]
fn every_run_recovers_its_file(rt: HostRuntime) -> Result<(), Fail> {
    let alloc = rt.alloc();
    for (name, moves, expected) in [
        (
            "two writes that overlap, in order",
            "tag 0;put 1 0 old;put 2 1 new;dispatch 1;write 1 0;flush 1 0;retire 1;dispatch 2;write 2 0;flush 2 0;retire 2",
            b"onew".as_slice(),
        ),
        (
            "a torn write that waits again",
            "tag 0;put 1 0 abc;dispatch 1;tear 1 0 xyz;back 1",
            b"abc".as_slice(),
        ),
        (
            "a covered write is marked and skipped",
            "tag 0;put 1 0 old;put 2 0 new;mark 1 2;skip 1;crash;mount",
            b"new".as_slice(),
        ),
        (
            "a mark that a crash loses",
            "tag 0;put 1 0 old;put 2 0 new;mark-fails 1 2;crash;mount",
            b"new".as_slice(),
        ),
        (
            "a covered write while the old one is out",
            "tag 0;put 1 0 old;dispatch 1;put 2 0 n;write 1 0;flush 1 0;retire 1;dispatch 2;write 2 0;flush 2 0;retire 2",
            b"nld".as_slice(),
        ),
        (
            "a read between two writes",
            "tag 0;put 1 0 aa;dispatch 1;write 1 0;flush 1 0;retire 1;read 2 0;put 3 0 bb;serve 2 0 aa;dispatch 3;write 3 0;flush 3 0;retire 3",
            b"bb".as_slice(),
        ),
        (
            "a truncate and a write past it share a block",
            "tag 0;put 1 0 abcdef;dispatch 1;write 1 0;flush 1 0;retire 1;cut 2 2;put 3 4 z;dispatch 2;write 2 0;flush 2 0;retire 2;dispatch 3;write 3 0;flush 3 0;retire 3",
            b"ab\0\0z".as_slice(),
        ),
        (
            "a request in doubt whose gate is open",
            "tag 0;lose 1 0 abc;crash-open;mount",
            b"abc".as_slice(),
        ),
        (
            "a request in doubt whose gate is closed",
            "tag 0;lose 1 0 abc;crash;mount",
            b"".as_slice(),
        ),
        (
            "a doubt that is settled",
            "tag 0;lose 1 0 abc;settle;put 1 0 d",
            b"d".as_slice(),
        ),
        (
            "a size word that is unsure",
            "tag 0;put 1 0 abc;dispatch 1;write 1 0;flush 1 0;size-fails 1;crash-size 0;mount",
            b"abc".as_slice(),
        ),
        (
            "an applied entry needs no block",
            "tag 0;put 1 0 abc;dispatch 1;write 1 0;flush 1 0;gate-fails 1;dispatch 1;back-applied 1;dispatch 1;retire 1",
            b"abc".as_slice(),
        ),
        (
            "a sync and two appends",
            "tag 0;append 1 0 ab;append 2 0 cd;sync 3;dispatch 1;write 1 0;flush 1 0;retire 1;dispatch 2;write 2 0;flush 2 0;retire 2;serve 3",
            b"abcd".as_slice(),
        ),
        (
            "an append behind a gap that a later write stored",
            "tag 0;put 1 0 0123456789;append 2 0 abcdefghij;put 3 50 ABCDEFGHIJ;dispatch 3;write 3 0;flush 3 0;retire 3;crash;mount",
            b"0123456789abcdefghij\0\0\0\0\0\0\0\0\0\0\0\0\0\0\0\0\0\0\0\0\0\0\0\0\0\0\0\0\0\0ABCDEFGHIJ".as_slice(),
        ),
        (
            "a truncate takes its blocks two by two",
            "tag 0;tag 1;tag 2;cut 1 9000;cut 2 0;dispatch 1;write 1 2;flush 1 2;retire 1;dispatch 2;write 2 0;write 2 1;flush 2 0;flush 2 1;more 2;dispatch 2;write 2 2;flush 2 2;retire 2",
            b"".as_slice(),
        ),
        (
            "tags, trims and flushes that fail",
            "tag-fails 0;tag 0;trim-fails 0;trim 0;tag 0;put 1 0 a;read 2 0;drop 2;dispatch 1;write 1 0;flush-fails 1 0;flush 1 0;retire 1",
            b"a".as_slice(),
        ),
    ] {
        let core = play(alloc, moves)?.ok().ok_or(name)?;
        let image = image_now(alloc, &core)?;
        let file = recovered_file(alloc, &core, &image)?;
        assert_eq!(rt; file.as_slice(), expected, "{name}");
    }
    Ok(())
}

/// A write of 20,000 bytes at 100, which has positions in five blocks.
const LONG_WRITE: &str = "tag 0;tag 1;tag 2;tag 3;tag 4;fill 1 100 20000";

fn long_file(alloc: Global) -> Result<Bytes, NoMemory> {
    let mut file = Bytes::new(alloc);
    file.put(100, counted_bytes(alloc, 20000)?.as_slice())?;
    Ok(file)
}

#[test]
fn a_long_write_goes_home_by_two_blocks(rt: HostRuntime) -> Result<(), Fail> {
    let alloc = rt.alloc();
    let expected = long_file(alloc)?;
    for (name, moves) in [
        (
            "three jobs",
            "dispatch 1;write 1 0;write 1 1;flush 1 1;flush 1 0;more 1;dispatch 1;write 1 2;write 1 3;flush 1 2;flush 1 3;more 1;dispatch 1;write 1 4;flush 1 4;retire 1;crash;mount",
        ),
        (
            "a job that is put back",
            "dispatch 1;write 1 0;flush 1 0;back 1;dispatch 1;write 1 0;write 1 1;flush 1 0;flush 1 1;more 1;dispatch 1;write 1 3;back 1;crash;mount",
        ),
        (
            "a crash after the first two blocks",
            "dispatch 1;write 1 0;write 1 1;flush 1 0;flush 1 1;more 1;crash;mount",
        ),
        (
            "a crash after four blocks",
            "dispatch 1;write 1 0;write 1 1;flush 1 0;flush 1 1;more 1;dispatch 1;write 1 2;write 1 3;flush 1 2;flush 1 3;more 1;crash;mount",
        ),
    ] {
        let mut core = play(alloc, LONG_WRITE)?.ok().ok_or(name)?;
        for text in moves.split(';') {
            core = play_on(alloc, core, text)?.ok().ok_or(text)?;
            let image = image_now(alloc, &core)?;
            let file = recovered_file(alloc, &core, &image)?;
            assert_eq!(rt; file.as_slice(), expected.as_slice(), "{name}: {text}");
        }
        assert!(rt; core.log.len() == 0, "{name}");
    }
    Ok(())
}

#[test]
fn every_event_is_refused_where_it_has_no_case(rt: HostRuntime) -> Result<(), Fail> {
    let alloc = rt.alloc();
    for (name, moves, last) in [
        (
            "a dispatch past an earlier write",
            "tag 0;put 1 0 ab;put 2 1 c;dispatch 2",
            3,
        ),
        (
            "a dispatch past an unserved read",
            "tag 0;put 1 0 a;dispatch 1;write 1 0;flush 1 0;retire 1;read 2 0;put 3 0 b;dispatch 3",
            8,
        ),
        (
            "a mark past an unserved read",
            "tag 0;put 1 0 a;read 2 0;put 3 0 b;mark 1 3",
            4,
        ),
        (
            "a mark by an entry that is not live",
            "tag 0;put 1 0 a;put 2 0 b;put 3 0 c;mark 2 3;mark 1 2",
            5,
        ),
        (
            "a mark by an earlier entry",
            "tag 0;put 1 0 a;put 2 0 b;mark 2 1",
            3,
        ),
        (
            "a mark that does not cover",
            "tag 0;put 1 0 ab;put 2 0 b;mark 1 2",
            3,
        ),
        (
            "retired without a flush",
            "tag 0;put 1 0 a;dispatch 1;write 1 0;retire 1",
            4,
        ),
        (
            "retired after a torn write",
            "tag 0;put 1 0 a;dispatch 1;write 1 0;flush 1 0;tear 1 0 b;retire 1",
            6,
        ),
        (
            "a truncate retired without zeroing",
            "tag 0;put 1 0 ab;dispatch 1;write 1 0;flush 1 0;retire 1;cut 2 1;dispatch 2;retire 2",
            8,
        ),
        (
            "more to come of a block that is not flushed",
            "tag 0;put 1 0 a;dispatch 1;more 1",
            3,
        ),
        (
            "applied without its bytes",
            "tag 0;put 1 0 a;dispatch 1;gate-fails 1",
            3,
        ),
        (
            "put back with a gate that opened again",
            "tag 0;put 1 0 a;dispatch 1;write 1 0;flush 1 0;gate-fails 1;dispatch 1;gate-opens 1",
            7,
        ),
        (
            "a long write retired after its first two blocks",
            "tag 0;tag 1;tag 2;fill 1 0 8193;dispatch 1;write 1 0;write 1 1;flush 1 0;flush 1 1;retire 1",
            9,
        ),
        (
            "a third block of a long write",
            "tag 0;tag 1;tag 2;fill 1 0 8193;dispatch 1;write 1 2",
            5,
        ),
        (
            "a long write without its last block",
            "tag 0;tag 1;fill 1 0 8193",
            2,
        ),
        (
            "a write of more than the longest",
            "tag 0;fill 1 0 65537",
            1,
        ),
        (
            "a finish of an entry that waits",
            "tag 0;put 1 0 a;retire 1",
            2,
        ),
        (
            "a trim of a block that a truncate has",
            "tag 0;cut 1 0;trim 0",
            2,
        ),
        (
            "a trim below the stored size",
            "tag 0;put 1 0 a;dispatch 1;write 1 0;flush 1 0;retire 1;trim 0",
            6,
        ),
        ("a settle without a doubt", "settle", 0),
        (
            "a second request in doubt",
            "tag 0;lose 1 0 a;lose 1 0 a",
            2,
        ),
        ("a mount without a crash", "mount", 0),
        ("work after a crash", "tag 0;put 1 0 a;crash;dispatch 1", 3),
        ("no image has that size", "crash-size 1", 0),
        ("a write into a block that is not mapped", "put 1 0 a", 0),
        ("a write past the longest file", "tag 0;put 1 1048576 a", 1),
        ("a write of nothing", "tag 0;put 1 0", 1),
        ("a place that is not the next", "tag 0;put 2 0 a", 1),
        ("a read's place that is not the next", "read 0 0", 0),
        (
            "a read past a live write",
            "tag 0;put 1 0 a;read 2 0;serve 2 0 a",
            3,
        ),
        (
            "a read of bytes that are not stored",
            "tag 0;put 1 0 a;dispatch 1;write 1 0;flush 1 0;retire 1;read 2 0;serve 2 0 b",
            7,
        ),
        (
            "a sync past a live write",
            "tag 0;put 1 0 a;sync 2;serve 2",
            3,
        ),
        (
            "a drop of a read that was dropped",
            "read 1 0;drop 1;drop 1",
            2,
        ),
        (
            "a block that the job has not",
            "tag 0;tag 1;put 1 0 a;dispatch 1;write 1 1",
            4,
        ),
        (
            "a torn write of another length",
            "tag 0;put 1 0 a;dispatch 1;tear 1 0 ab",
            3,
        ),
        ("a flush without a job", "tag 0;put 1 0 a;flush 1 0", 2),
        ("a skip of an entry that waits", "tag 0;put 1 0 a;skip 1", 2),
        ("a tag of a mapped block", "tag 0;tag 0", 1),
        ("a block past the last", "tag 256", 0),
        ("a trim of a block that is not mapped", "trim 0", 0),
    ] {
        assert_eq!(rt; play(alloc, moves)?.err(), Some(last), "{name}");
    }
    Ok(())
}

/// Two hundred moves, drawn among those that may come, and a truncate. The answers of their reads
/// were worked out from the requests alone.
const LONG_RUN: [&str; 25] = [
    "tag 0;put 1 5 elc;read 2 5;put 3 7 h;dispatch 1;tag-fails 1;put 4 4 m;write 1 0;tag 2",
    "put 5 4090 e;flush 1 0;retire 1;drop 2;read 6 4100;cut 7 4095;dispatch 5;cut 8 8196;back 5",
    "tag 1;dispatch 7;sync 9;write 7 1;write 7 0;read 10 4094;flush 7 1;serve 6;flush 7 0",
    "sync 11;back 7;dispatch 7;drop 10;write 7 1;flush 7 1;write 7 0;read 12 2;flush 7 0;more 7",
    "dispatch 4;write 4 0;dispatch 7;back 7;dispatch 7;flush 4 0;write 7 2;retire 4;dispatch 3",
    "cut 13 7;mark-fails 8 13;mark 8 13;append 14 0 ui;mark 5 13;skip 5;flush 7 2;gate-fails 7",
    "skip 8;lose 15 8188 mc;mark 7 13;write 3 0;flush 3 0;retire 3;serve 12 0 \0\0melh\0\0\0",
    "dispatch 13;write 13 0;serve 11;sync 15;flush 13 0;read 16 8;skip 7;write 13 1;flush 13 1",
    "more 13;serve 9;dispatch 13;write 13 2;flush 13 2;retire 13;dispatch 14;write 14 0",
    "flush 14 0;read 17 4094;retire 14;serve 15;serve 16 0 i;crash-open;mount;read 1 4100",
    "read 2 11;serve 1 0 \0\0\0\0\0\0\0\0\0;read 3 4098;put 4 8189 vg;dispatch 4;drop 2;cut 5 0",
    "write 4 1;read 6 2;flush 4 1;serve 6;drop 3;put 7 5 kmzklh;retire 4;append 8 0 awkw",
    "append 9 0 boy;read 10 10;dispatch 5;lose 11 2 mngtz;write 5 1;write 5 0;read 11 4100",
    "serve 11;read 12 4094;serve 12;sync 13;sync 14;flush 5 0;flush 5 1;drop 10;more 5",
    "dispatch 5;crash-open;mount;cut 1 4093;dispatch 1;write 1 0;write 1 1;flush-fails 1 0",
    "append 2 0 ox;flush 1 0;lose 3 9 cznn;settle;flush 1 1;put 3 4090 wuy;read 4 1;drop 4",
    "read 5 4099;lose 6 4092 usprf;read 6 4093;read 7 6;drop 6;back 1;dispatch 3;serve 5;settle",
    "write 3 0;flush 3 0;sync 8;retire 3;dispatch 1;crash;mount;put 1 1 vqfz;put 2 4093 qyajzp",
    "put 3 1 r;dispatch 2;write 2 1;put 4 4092 vs;trim-fails 2;write 2 0;tag 2;sync 5",
    "put 6 10 jsyov;back 2;dispatch 6;trim 2;read 7 4099;write 6 0;read 8 4099;tag 2;flush 6 0",
    "retire 6;dispatch 1;serve 7;read 9 10;put 10 4090 imwmtn;mark 4 10;put 11 8192 oibk;serve 8",
    "write 1 0;read 12 4100;dispatch 11;write 11 2;flush 11 2;drop 12;retire 11;read 13 6",
    "put 14 4091 finkj;flush 1 0;size-fails 1;serve 9 0 jsyovboy\0;dispatch 2;tear 2 1 ###",
    "skip 4;write 2 0;write 2 1;flush 2 0;read 15 2;flush-fails 2 1;drop 13;back 2;dispatch 1",
    "write 1 0;cut 16 24",
];

#[test]
fn a_long_run_recovers_its_file(rt: HostRuntime) -> Result<(), Fail> {
    let alloc = rt.alloc();
    let mut core = Core::empty(alloc)?;
    for moves in LONG_RUN {
        core = play_on(alloc, core, moves)?.ok().ok_or(moves)?;
    }
    let image = image_now(alloc, &core)?;
    let file = recovered_file(alloc, &core, &image)?;
    assert_eq!(rt;
        file.as_slice(),
        b"\0rqfztzzkljsyovboy\0\0\0\0\0\0".as_slice()
    );
    Ok(())
}
