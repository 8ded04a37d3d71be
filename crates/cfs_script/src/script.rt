//! A whole script.

ghost use Rattle.std.specs.Prelude.{◌≡◌};
ghost use Rattle.cfs_script.specs.Script.{AreLawful, IsLawful};

use crate::{Command, Line};
use std::marker::Model;

/// The most lines that a script may have, empty ones and comments included (own).
pub const MOST_LINES: u64 = 65_536;

/// A script of `play` or of `run`. Contracts see the list of its lines, which keep all rules of the
/// grammar: numbers ascend from 1 up to [`MOST_LINES`], each value can be spelled, and each line
/// may stand behind those before it.
#[derive(Debug, Drop)]
pub struct Script {
    lines: Vec<Line>,
}

impl Model for Script {
    ghost use Rattle.std.specs.Prelude.{List};
    ghost use Rattle.cfs_script.specs.declared.line.Line.{Line};
    ghost use Rattle.cfs_script.specs.Script.{AreLawful};

    ghost Value = { List Line };

    ghost view = { λ s. s.lines.items };

    ghost invariant = { λ s. AreLawful s.lines.items };
}

impl Script {
    /// The command's script of these lines. Takes no memory.
    pub fn new(command: Command, lines: Vec<Line>) -> Script
        requires { IsLawful command lines.items }
        ensures { result ≡ lines.items }
    {
        Script { lines }
    }

    /// The lines, in order.
    pub fn lines(&self) -> &[Line]
        ensures same { result.now ≡ self.now }
        ensures lawful { AreLawful self.now }
    {
        self.lines.as_slice()
    }

    /// Gives the lines back. Takes no memory.
    pub fn into_lines(self) -> Vec<Line>
        ensures { result.items ≡ self }
    {
        let Script { lines } = self;
        lines
    }
}
