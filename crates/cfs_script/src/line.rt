//! A line of a script.

use crate::Form;

/// A line of a script.
#[derive(Debug, Drop, PartialEq, Eq)]
pub struct Line {
    /// Its number, from 1.
    pub number: u64,
    /// What it asks for.
    pub form: Form,
}
