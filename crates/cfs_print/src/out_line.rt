//! A line of output.

use crate::Printed;

/// What the line of that number answers.
#[derive(Debug, Drop)]
pub struct OutLine {
    /// The number of the script's line, from 1.
    pub number: u64,
    /// What it answers.
    pub answer: Printed,
}
