//! Commands are carried out: a function for each word.

ghost use Rattle.std.specs.Prelude.{◌≡◌, length, true};
ghost use Rattle.cfs_core.specs.May.{is_query};
ghost use Rattle.cfs_inode.specs.Serves.{IsRead, count_of};
ghost use Rattle.cfs_active.specs.View.{active_view};

use crate::command::{Command, command_of};
use crate::crash::recovered;
use crate::rig::Rig;
use crate::runs::runs_text;
use crate::staging::filled;
use crate::texts::{applied, closed, dispatched, ended, listed, trimmed};
use cfs_file::{Bytes, LONGEST_FILE, NoMemory, Request, Span, apply};
use cfs_inode::{CloseAnswer, ServeAnswer};
use cfs_tracker::Reading;
use std::alloc::Global;
use std::mem;

/// How many bytes a read has.
fn count_of(reading: Reading) -> usize
    ensures { result ≡ count_of reading.span }
{
    match reading.span {
        Span::Range { from, to } => to.saturating_sub(from) as usize,
        Span::From { from } => LONGEST_FILE.saturating_sub(from) as usize,
        Span::Nothing => 0,
    }
}

/// Which file a crash left: the one after the acknowledged changes, that followed by the change in
/// doubt, or another one.
fn verdict(
    left: &Bytes,
    mut file: Bytes,
    doubt: Option<Request>,
) -> Result<&'static str, NoMemory> {
    if *left == file {
        return Ok("as acknowledged");
    }
    if let Some(request) = doubt {
        apply(&mut file, &request)?;
        if *left == file {
            return Ok("with the change in doubt");
        }
    }
    Ok("as no change left it")
}

impl Rig {
    /// Carries out a command, and answers what it says.
    pub(crate) fn carry_out(&mut self, line: &str) -> Result<String, NoMemory> {
        let command = command_of(line);
        match command.word {
            "write" => self.write(command),
            "append" => self.append(command),
            "truncate" => self.admit(Request::Truncate {
                length: command.first,
            }),
            "read" => self.read(&Request::Read {
                offset: command.first,
                count: command.second,
            }),
            "sync" => self.read(&Request::Sync),
            "serve" => self.serve(command.first),
            "drop" => self.drop_read(command.first),
            _ => self.work(command),
        }
    }

    /// Carries out a command that works on what is admitted.
    fn work(&mut self, command: Command<'_>) -> Result<String, NoMemory> {
        match command.word {
            "dispatch" => self.dispatch(command.first),
            "apply" => self.apply(command.first),
            "finish" => self.finish(command.first),
            "put_back" => self.put_back(command.first),
            "skip" => self.skip(command.first),
            "settle" => self.settle(),
            "trim" => self.trim(),
            _ => self.look(command),
        }
    }

    /// Carries out a command that asks no device for a step.
    fn look(&mut self, command: Command<'_>) -> Result<String, NoMemory> {
        match command.word {
            "grant" => self.take_grant(command.first),
            "stop" => self.stop(command.first),
            "revive" => self.revive(),
            "show" => self.show(),
            "list" => self.list(command),
            "crash" => self.crash(command.first),
            _ => Ok(format!(in self.alloc; "no such command")?),
        }
    }

    /// `write OFFSET COUNT BYTE`
    fn write(&mut self, command: Command<'_>) -> Result<String, NoMemory> {
        let bytes = filled(self.alloc, command.second as usize, command.fill)?;
        self.admit(Request::Write {
            offset: command.first,
            bytes,
        })
    }

    /// `append COUNT BYTE`
    fn append(&mut self, command: Command<'_>) -> Result<String, NoMemory> {
        let bytes = filled(self.alloc, command.first as usize, command.fill)?;
        self.admit(Request::Append { bytes })
    }

    /// `read OFFSET COUNT`, `sync`
    fn read(&mut self, request: &Request) -> Result<String, NoMemory>
        requires { is_query request.now ≡ true }
    {
        self.active.reserve()?;
        if self.active.count() > 1000 {
            return Ok(format!(in self.alloc; "no place")?);
        }
        let reading = self.active.admit_read(request);
        Ok(format!(in self.alloc; "place={}", reading.place)?)
    }

    /// `serve PLACE`
    fn serve(&mut self, place: u64) -> Result<String, NoMemory> {
        let Some(reading) = self.active.read(place) else {
            return Ok(format!(in self.alloc; "no read")?);
        };
        let mut out = vec![in self.alloc; 0; count_of(reading)]?;
        self.serve_into(place, out.as_mut_slice())
    }

    fn serve_into(&mut self, place: u64, out: &mut [u8]) -> Result<String, NoMemory>
        requires { IsRead (active_view self.old.active).state place (length out.old) }
    {
        let answer = self.active.serve(&mut self.meter, place, out);
        let text = match answer {
            ServeAnswer::Served => format!(in self.alloc; "bytes {}", runs_text(self.alloc, out)?)?,
            ServeAnswer::NotYet(before) => format!(in self.alloc; "behind {before}")?,
            ServeAnswer::Failed => format!(in self.alloc; "failed")?,
        };
        Ok(text)
    }

    /// `drop PLACE`
    fn drop_read(&mut self, place: u64) -> Result<String, NoMemory> {
        if self.active.read(place).is_none() {
            return Ok(format!(in self.alloc; "no read")?);
        }
        self.active.drop_read(place);
        Ok(format!(in self.alloc; "dropped")?)
    }

    /// `dispatch PLACE`
    fn dispatch(&mut self, place: u64) -> Result<String, NoMemory> {
        self.active.reserve()?;
        let answer = self.active.dispatch(place);
        Ok(dispatched(self.alloc, &answer)?)
    }

    /// `apply PLACE`
    fn apply(&mut self, place: u64) -> Result<String, NoMemory> {
        let answer = self.active.apply(&mut self.meter, place);
        Ok(applied(self.alloc, answer)?)
    }

    /// `finish PLACE`
    fn finish(&mut self, place: u64) -> Result<String, NoMemory> {
        let answer = self.active.finish(&mut self.meter, place);
        Ok(ended(self.alloc, &answer)?)
    }

    /// `put_back PLACE`
    fn put_back(&mut self, place: u64) -> Result<String, NoMemory> {
        let text = if self.active.put_back(place) {
            "waits again"
        } else {
            "not out"
        };
        Ok(format!(in self.alloc; "{text}")?)
    }

    /// `skip PLACE`
    fn skip(&mut self, place: u64) -> Result<String, NoMemory> {
        let answer = self.active.skip(&mut self.meter, place);
        Ok(closed(self.alloc, &answer)?)
    }

    /// `settle`
    fn settle(&mut self) -> Result<String, NoMemory> {
        let answer = self.active.settle(&mut self.meter);
        if matches!(answer, CloseAnswer::Closed(_)) {
            self.doubt = None;
        }
        Ok(closed(self.alloc, &answer)?)
    }

    /// `trim`
    fn trim(&mut self) -> Result<String, NoMemory> {
        let answer = self.active.trim(&mut self.meter);
        Ok(trimmed(self.alloc, &answer)?)
    }

    /// `grant GRANT`: later changes are staged under it.
    fn take_grant(&mut self, grant: u64) -> Result<String, NoMemory> {
        self.grant = grant;
        Ok(format!(in self.alloc; "ok")?)
    }

    /// `stop STEP`: this writing step from now, from 1, and all later steps are refused.
    pub(crate) fn stop(&mut self, step: u64) -> Result<String, NoMemory> {
        self.meter.stop(step.max(1));
        Ok(format!(in self.alloc; "ok")?)
    }

    /// `revive`
    fn revive(&mut self) -> Result<String, NoMemory> {
        self.meter.revive();
        Ok(format!(in self.alloc; "ok")?)
    }

    /// `show`
    fn show(&self) -> Result<String, NoMemory> {
        let (long, count) = (self.active.length(), self.active.count());
        let (jobs, doubt) = (self.active.jobs_out(), self.active.is_in_doubt());
        Ok(format!(in self.alloc; "len={long} places={count} out={jobs} doubt={doubt}")?)
    }

    /// `list GRANT PLACE`: the first change of a grant behind a place.
    fn list(&self, command: Command<'_>) -> Result<String, NoMemory> {
        let found = self.active.listing(command.first, command.second);
        Ok(listed(self.alloc, found)?)
    }

    /// `crash PICK`: the file that is left. A new rig stands here behind it.
    pub(crate) fn crash(&mut self, pick: u64) -> Result<String, NoMemory> {
        let next = Rig::new(self.alloc)?;
        let Rig {
            active,
            file,
            doubt,
            alloc,
            ..
        } = mem::replace(self, next);
        let left = recovered(alloc, active, pick)?;
        let verdict = verdict(&left, file, doubt)?;
        let runs = runs_text(alloc, left.as_slice())?;
        Ok(format!(in alloc; "{verdict}: {runs}")?)
    }
}
