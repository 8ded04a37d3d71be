//! What the lines of a script have shown so far.

ghost use Rattle.std.specs.Prelude.{◌≡◌, OnOk, OnErr};
ghost use Rattle.cfs_script.specs.Session.{after, allows, fits, has, introduced, is_played, is_run, knows, nothing, user_of};

use crate::{Command, Form};
use cfs_file::NoMemory;
use indexmap::IndexSet;
use std::alloc::Global;
use std::marker::Model;

/// The callers that lines introduced, and whether there was a cut.
#[derive(Drop)]
pub(crate) struct Seen {
    callers: IndexSet<u64>,
    cut: bool,
}

impl Model for Seen {
    ghost use Rattle.cfs_script.specs.Session as session;

    ghost Value = { session.Seen };

    ghost view = { λ s. record { callers = s.callers.keys; cut = s.cut } };
}

impl Seen {
    /// Nothing yet. Takes no memory.
    pub(crate) fn new(alloc: Global) -> Seen
        ensures { result ≡ nothing }
    {
        Seen {
            callers: IndexSet::new(alloc),
            cut: false,
        }
    }

    /// Whether the command's script may ask for this, behind the lines so far.
    pub(crate) fn allows(&self, command: Command, form: &Form) -> bool
        ensures { result ≡ allows command self.now form.now }
    {
        has(command, form) && self.fits(form)
    }

    fn fits(&self, form: &Form) -> bool
        ensures { result ≡ fits self.now form.now }
    {
        match form {
            Form::Caller { caller, .. } => !self.knows(*caller),
            Form::Cut { .. } => !self.cut,
            _ => match user_of(form) {
                Some(caller) => self.knows(caller),
                None => true,
            },
        }
    }

    fn knows(&self, caller: u64) -> bool
        ensures { result ≡ knows self.now caller }
    {
        self.callers.contains(&caller)
    }

    /// Adds a form.
    pub(crate) fn add(&mut self, form: &Form) -> Result<(), NoMemory>
        ensures { OnOk result (self.new ≡ after self.old form.now) }
    {
        match form {
            Form::Caller { caller, .. } => self.introduce(*caller)?,
            Form::Cut { .. } => self.cut = true,
            _ => {}
        }
        Ok(())
    }

    /// Adds a caller.
    fn introduce(&mut self, caller: u64) -> Result<(), NoMemory>
        ensures { OnOk result (self.new ≡ introduced self.old caller) }
    {
        self.callers.insert(caller)?;
        Ok(())
    }
}

/// Whether the command has the form.
fn has(command: Command, form: &Form) -> bool
    ensures { result ≡ has command form.now }
{
    match command {
        Command::Play => is_played(form),
        Command::Run => is_run(form),
    }
}

/// Whether `play` has the form.
fn is_played(form: &Form) -> bool
    ensures { result ≡ is_played form.now }
{
    !matches!(form, Form::Cut { .. })
}

/// Whether `run` has the form.
fn is_run(form: &Form) -> bool
    ensures { result ≡ is_run form.now }
{
    match form {
        Form::Post { .. } | Form::Serve { .. } | Form::Queue { .. } => false,
        Form::Dispatch { .. } | Form::Apply { .. } | Form::Finish { .. } => false,
        Form::Skip { .. } | Form::Trim { .. } | Form::Settle { .. } => false,
        Form::Turn | Form::Drain | Form::Mount => false,
        Form::Stop { .. } | Form::Crash { .. } => false,
        Form::Fail { .. } | Form::FailRead { .. } => false,
        _ => true,
    }
}

/// The caller that the form is of.
fn user_of(form: &Form) -> Option<u64>
    ensures { result ≡ user_of form.now }
{
    match form {
        Form::Open { caller, .. } | Form::Close { caller, .. } | Form::Fsync { caller, .. } => Some(
            *caller,
        ),
        Form::Mkdir { caller, .. } | Form::Unlink { caller, .. } => Some(*caller),
        Form::Rmdir { caller, .. } | Form::Rename { caller, .. } => Some(*caller),
        Form::Read { caller, .. } | Form::Write { caller, .. } => Some(*caller),
        Form::Pread { caller, .. } | Form::Pwrite { caller, .. } => Some(*caller),
        Form::TryPwrite { caller, .. } | Form::Lseek { caller, .. } => Some(*caller),
        Form::Ftruncate { caller, .. } | Form::Queue { caller, .. } => Some(*caller),
        Form::Post { caller, .. } | Form::Serve { caller, .. } => Some(*caller),
        _ => None,
    }
}
