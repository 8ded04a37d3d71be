//! The commands that take scripts.

/// A command that takes a script.
#[derive(Clone, Copy, Debug, PartialEq, Eq)]
pub enum Command {
    /// `play`: one line after another.
    Play,
    /// `run`: each caller on its own thread.
    Run,
}
