//! What a script's lines act on.

ghost use Rattle.std.specs.Prelude.{◌≡◌, ◌+◌, ◌<◌, ◌^◌, [], length, IfOk, OnErr, Some};
ghost use Rattle.cfs_top.specs.Play.{Admits, Step};

use crate::out_line::OutLine;
use crate::printed::Printed;
use cfs_file::{Bytes, Entry, NoMemory, Request, answer_on, apply};
use cfs_script::{Form, Line};
use std::alloc::Global;
use std::marker::Model;

/// The inode number of the one file.
pub(crate) const FILE: u64 = 2;

/// The one file and its log. Contracts see the log; the file is what the log makes of an empty one.
#[derive(Drop)]
pub(crate) struct World {
    alloc: Global,
    file: Bytes,
    log: Vec<Entry>,
}

impl Model for World {
    ghost use Rattle.std.specs.Prelude.{◌≡◌, List, []};
    ghost use Rattle.cfs_file.specs.declared.entry.Entry.{Entry};
    ghost use Rattle.cfs_file.specs.Log.{file_of};

    ghost Value = { List Entry };

    ghost view = { λ w. w.log.items };

    ghost invariant = { λ w. w.file ≡ file_of [] w.log.items };
}

impl World {
    /// An empty file with an empty log. Takes no memory.
    pub(crate) fn new(alloc: Global) -> World
        ensures { result ≡ [] }
    {
        World {
            alloc,
            file: Bytes::new(alloc),
            log: Vec::new(alloc),
        }
    }

    /// Does what a line asks for, and answers it. Costs the bytes that the line moves.
    /// An `Err` leaves the world as it was.
    pub(crate) fn play_line(&mut self, line: &Line) -> Result<Option<OutLine>, NoMemory>
        ensures played { IfOk result (λ reply. Step self.old line.now reply self.new) }
        ensures err { OnErr result (self.new ≡ self.old) }
    {
        match &line.form {
            Form::Open { .. } => Ok(Some(OutLine {
                number: line.number,
                answer: Printed::Opened {
                    place: 1,
                    fd: 0,
                    ino: FILE,
                },
            })),
            Form::Pwrite {
                caller,
                offset,
                bytes,
                ..
            } => {
                let request = Request::Write {
                    offset: *offset,
                    bytes: bytes.clone()?,
                };
                let out = self.admit(line.number, *caller, request)?;
                Ok(Some(out))
            }
            Form::Pread {
                caller,
                offset,
                count,
                ..
            } => {
                let request = Request::Read {
                    offset: *offset,
                    count: *count,
                };
                let out = self.admit(line.number, *caller, request)?;
                Ok(Some(out))
            }
            _ => Ok(None),
        }
    }

    /// Gives the request the next place and answers it. An `Err` leaves the world as it was.
    fn admit(&mut self, line: u64, caller: u64, request: Request) -> Result<OutLine, NoMemory>
        ensures admitted { IfOk result (λ out.
            Admits self.old line caller request (Some out) self.new) }
        ensures err { OnErr result (self.new ≡ self.old) }
    {
        let answer = answer_on(self.alloc, &self.file, &request)?;
        let place = self.log.len() as u64 + 1;
        self.log.reserve(1)?;
        apply(&mut self.file, &request)?;
        self.log.push(Entry {
            ino: FILE,
            place,
            caller,
            line,
            request,
        })?;
        Ok(OutLine {
            number: line,
            answer: Printed::of_request(FILE, place, answer),
        })
    }
}
