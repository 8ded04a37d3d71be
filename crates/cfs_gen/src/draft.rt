//! A script in the making.

ghost use Rattle.std.specs.Prelude.{◌≡◌, ◌++◌, ◌∷◌, [], OnOk};
ghost use Rattle.cfs_gen.specs.Lines.{numbered};

use cfs_file::NoMemory;
use cfs_script::{Form, Line};
use std::alloc::Global;
use std::marker::Model;

/// A script in the making. Contracts see the forms of its lines, which are numbered from 1.
#[derive(Debug, Drop)]
pub(crate) struct Draft {
    lines: Vec<Line>,
}

impl Model for Draft {
    ghost use Rattle.std.specs.Prelude.{◌≡◌, List};
    ghost use Rattle.cfs_script.specs.declared.form.Form.{Form};
    ghost use Rattle.cfs_script.specs.Script.{forms_of};
    ghost use Rattle.cfs_gen.specs.Lines.{numbered};

    ghost Value = { List Form };

    ghost view = { λ d. forms_of d.lines.items };

    ghost invariant = { λ d. numbered 1 (forms_of d.lines.items) ≡ d.lines.items };
}

impl Draft {
    /// No lines yet. Takes no memory.
    pub(crate) fn new(alloc: Global) -> Draft
        ensures { result ≡ [] }
    {
        Draft {
            lines: Vec::new(alloc),
        }
    }

    /// Adds a line of the form.
    pub(crate) fn push(&mut self, form: Form) -> Result<(), NoMemory>
        ensures { OnOk result (self.new ≡ self.old ++ form ∷ []) }
    {
        let number = self.lines.len() as u64 + 1;
        self.lines.push(Line { number, form })?;
        Ok(())
    }

    /// The lines. Takes no memory.
    pub(crate) fn into_lines(self) -> Vec<Line>
        ensures { result.items ≡ numbered 1 self }
    {
        let Draft { lines } = self;
        lines
    }
}
